// Whole blocks put into the sponge (FIPS 202, chapter 4, algorithm 8, step 6). The lanes are taken to their places once, for all blocks of a piece; a
// block is put in where the lanes stand.
#![tactic(auto)]

ghost use Rattle.std.specs.Prelude.{◌≡◌, ◌+◌, ◌*◌, ◌<◌, ◌≤◌, length, take, drop};
ghost use Rattle.fips202.specs.Bytes.{xor_bytes};
ghost use Rattle.encode.specs.Padding.{rate, whole_blocks};
ghost use Rattle.in_place.specs.Rounds.{state_of, rounds_with};
ghost use Rattle.blocks_in.specs.Blocks.{absorb};
ghost use Rattle.blocks_in.specs.Columns.{evens_with, odds_with};

use encode::RATE;
use keccak_places::{Columns, all_lanes, known};
use keccak_rounds::{constants, rounds};
use lanes_in::word_at;

// Row y of the block of `s` at `at` put in, y being 0, 1 or 2.
fn xor_row(c: &mut Columns, y: usize, s: &[u8], at: usize)
    requires { (y < 3) × (at + rate ≤ length s.now) }
    ensures { (c.new.evens ≡ evens_with y s.now at c.old.evens)
        × (c.new.odds ≡ odds_with y s.now at c.old.odds) }
{
    let i = 3 * y;
    let j = 2 * y;
    let row = at + 40 * y;
    c.evens[i] ^= word_at(s, row);
    c.odds[j] ^= word_at(s, row + 8);
    c.evens[i + 1] ^= word_at(s, row + 16);
    c.odds[j + 1] ^= word_at(s, row + 24);
    c.evens[i + 2] ^= word_at(s, row + 32);
}

// The block of `s` at `at` put in: three rows of lanes, and two lanes more.
fn xor_block(c: &mut Columns, s: &[u8], at: usize)
    requires { at + rate ≤ length s.now }
    ensures { state_of c.new.evens c.new.odds
        ≡ xor_bytes (state_of c.old.evens c.old.odds) 0 (take rate (drop at s.now)) }
{
    // Neither holds, by the `requires`. Since they are tested here, the compiler leaves out the tests of the 17 words.
    if s.len() < RATE {
        return;
    }
    if s.len() - RATE < at {
        return;
    }
    known(c.evens, c.odds);
    xor_row(c, 0, s, at);
    xor_row(c, 1, s, at);
    xor_row(c, 2, s, at);
    let row = at + 120;
    c.evens[9] ^= word_at(s, row);
    c.odds[6] ^= word_at(s, row + 8);
}

// The block of `s` at `at` put in, and the rounds with the constants k. It is not inlined: the lanes are then read and written one by one, which was the
// quickest of the shapes tried (docs/DECISIONS.md).
#[inline(never)]
fn absorb_block(c: &mut Columns, k: &[u64; 24], s: &[u8], at: usize)
    requires { at + rate ≤ length s.now }
    ensures { state_of c.new.evens c.new.odds
        ≡ rounds_with 24 k.now (xor_bytes (state_of c.old.evens c.old.odds) 0 (take rate (drop at s.now))) }
{
    xor_block(c, s, at);
    rounds(c, k);
}

// The whole blocks of `s` from `from` on put in, each followed by the permutation; the place after them.
pub fn absorb_blocks(lanes: &mut [u64; 25], s: &[u8], from: usize) -> usize
    ensures { (result ≡ from + whole_blocks s.now from * rate)
        × (lanes.new ≡ absorb (whole_blocks s.now from) lanes.old (drop from s.now)) }
{
    let blocks = s.len().saturating_sub(from) / RATE;
    if blocks == 0 {
        return from;
    }
    let k = constants();
    all_lanes(*lanes);
    let mut c = Columns::of(*lanes);
    for i in 0..blocks {
        absorb_block(&mut c, &k, s, from + RATE * i);
    }
    *lanes = c.joined();
    from + RATE * blocks
}
