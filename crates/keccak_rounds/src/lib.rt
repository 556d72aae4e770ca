// The 24 rounds of Keccak-p[1600, 24] (FIPS 202, 3.3), two a turn, in the state itself: 25 places in two arrays, as keccak_places makes them.
#![tactic(auto)]

ghost use Rattle.std.specs.Prelude.{◌≡◌};
ghost use Rattle.in_place.specs.Rounds.{RoundConstants, state_of, rounds_with};

use keccak_even::even;
use keccak_odd::odd;
use keccak_places::{Columns, known};

// The 24 round constants, as round_constants::round_constant has them. They stand here as numbers, since the value of a constant calls no function. A caller
// binds them once and lends them: read of a static, whose address each round takes anew, squeezing took 1.005 times the instructions.
#[tactic(auto, using(round_constants::specs::Laws::RoundConstants::constants_are))]
pub fn constants() -> [u64; 24]
    ensures { RoundConstants result }
{
    [
        0x0000000000000001,
        0x0000000000008082,
        0x800000000000808a,
        0x8000000080008000,
        0x000000000000808b,
        0x0000000080000001,
        0x8000000080008081,
        0x8000000000008009,
        0x000000000000008a,
        0x0000000000000088,
        0x0000000080008009,
        0x000000008000000a,
        0x000000008000808b,
        0x800000000000008b,
        0x8000000000008089,
        0x8000000000008003,
        0x8000000000008002,
        0x8000000000000080,
        0x000000000000800a,
        0x800000008000000a,
        0x8000000080008081,
        0x8000000000008080,
        0x0000000080000001,
        0x8000000080008008,
    ]
}

// The rounds with the constants k, the two arrays lent apart. It is not inlined: its reads and writes of them then keep their order. Lent as one
// `&mut Columns` the rounds took 1.06 times the time and instructions.
#[inline(never)]
fn turns(p: &mut [u64; 15], q: &mut [u64; 10], k: &[u64; 24])
    ensures { state_of p.new q.new ≡ rounds_with 24 k.now (state_of p.old q.old) }
{
    let mut t = [p[0], q[0], p[1], q[1], p[2]];
    for i in 0..12 {
        known(*p, *q);
        let u = even(p, q, t, k, 2 * i);
        known(*p, *q);
        t = odd(p, q, u, k, 2 * i + 1);
    }
}

// The rounds with the constants k.
pub fn rounds(c: &mut Columns, k: &[u64; 24])
    ensures { state_of c.new.evens c.new.odds ≡ rounds_with 24 k.now (state_of c.old.evens c.old.odds) }
{
    turns(&mut c.evens, &mut c.odds, k);
}
