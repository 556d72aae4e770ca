// Keccak-p[1600, 24] on 25 lanes of 64 bits (FIPS 202, chapter 3): the lane (x, y) is at 5 y + x, its low byte first. The rounds run in the state itself:
// every row is written to the five places that it is read from, and there is no second set of lanes.
#![tactic(auto)]

ghost use Rattle.std.specs.Prelude.{◌≡◌};
ghost use Rattle.fips202.specs.Fips202.{keccak_p};

use keccak_places::Columns;
use keccak_rounds::{constants, rounds};

// The permutation.
pub fn keccak_p(a: [u64; 25]) -> [u64; 25]
    ensures { result ≡ keccak_p a }
{
    let k = constants();
    let mut c = Columns::of(a);
    rounds(&mut c, &k);
    c.joined()
}

// The permutation of lanes where they stand.
pub fn permute(lanes: &mut [u64; 25])
    ensures { lanes.new ≡ keccak_p lanes.old }
{
    *lanes = keccak_p(*lanes);
}
