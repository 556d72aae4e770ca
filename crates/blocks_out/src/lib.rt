// Whole blocks taken out of the sponge (FIPS 202, chapter 4, algorithm 8, steps 8 and 10). As where blocks are put in, the lanes go to their places once,
// for all blocks, and the round constants are bound once.
#![tactic(auto)]

ghost use Rattle.std.specs.Prelude.{◌≡◌, ◌+◌, ◌*◌};
ghost use Rattle.std.proofs.lemmas.List.Edits.{sets};
ghost use Rattle.fips202.specs.Fips202.{keccak_p};
ghost use Rattle.encode.specs.Padding.{rate, whole_blocks};
ghost use Rattle.blocks_out.specs.Blocks.{squeeze, permuted};

use encode::RATE;
use keccak_places::{Columns, all_lanes};
use keccak_rounds::{constants, rounds};
use lanes_out::put_out;

// The whole blocks that `out` has room for from `from` on filled, each after a permutation; the place after them.
pub fn squeeze_blocks(lanes: &mut [u64; 25], out: &mut [u8], from: usize) -> usize
    ensures { (result ≡ from + whole_blocks out.old from * rate)
        × (lanes.new ≡ permuted (whole_blocks out.old from) lanes.old)
        × (out.new ≡ sets out.old from (squeeze (whole_blocks out.old from) (keccak_p lanes.old))) }
{
    let blocks = out.len().saturating_sub(from) / RATE;
    if blocks == 0 {
        return from;
    }
    let k = constants();
    all_lanes(*lanes);
    let mut c = Columns::of(*lanes);
    for i in 0..blocks {
        rounds(&mut c, &k);
        let at = from + RATE * i;
        put_out(&mut out[at..at + RATE], 0, &c.joined(), 0);
    }
    *lanes = c.joined();
    from + RATE * blocks
}
