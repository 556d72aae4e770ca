// The calls of cSHAKE256, KMAC256 and KMACXOF256: what each is refused for, what it feeds the permutation and how often that runs. Nearly all of it is
// definitions, and stands in specs/; the code is the limits and the output's share of the count.
#![tactic(auto)]

ghost use Rattle.std.specs.Prelude.{◌≡◌};
ghost use Rattle.calls.specs.Count.{output_runs};

use encode::RATE;

// The limits of docs/RULES.md's table, as specs/Limits.antt has them.
pub const MAX_KEY: usize = 4096;

pub const MAX_NAME: usize = 4096;

pub const MAX_CUSTOMISATION: usize = 4096;

pub const MAX_MESSAGE: usize = 16777216;

pub const MAX_OUTPUT: usize = 16777216;

// The name of the standard's own function: compared with a lent name, and put into the prefix of a keyed start.
pub const KMAC: [u8; 4] = *b"KMAC";

// The share that an output of this many bytes has in the permutations.
pub fn output_runs(bytes: usize) -> usize
    ensures { result ≡ output_runs bytes }
{
    if bytes == 0 { 0 } else { (bytes - 1) / RATE }
}
