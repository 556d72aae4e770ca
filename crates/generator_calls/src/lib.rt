// The two calls that a generator is made of (cSHAKE-DRNG, 1.1.3 and 1.1.4, and KMAC-DRNG, 1.2.3 and 1.2.4), as the sponge runs them. Their contracts hold for
// strings of every length: what is refused is decided above.
#![tactic(auto)]

ghost use Rattle.std.specs.Prelude.{length};
ghost use Rattle.generator_calls.specs.GeneratorCalls.{KeyMade, PieceMade};

use drng::KEY_BYTES;
use generator_input::{absorb_input, call_start};
use seeding::Drng;
use start::NO_START;

// A key made by a seeding, and the seeding's permutations.
#[derive(Clone, Copy)]
pub struct NewKey {
    pub key: [u8; KEY_BYTES],
    pub runs: usize,
}

// The key made of the old one, the seed and the personalisation (1.1.3 and 1.2.3).
pub fn new_key(drng: Drng, old: [u8; KEY_BYTES], seed: &[u8], personalisation: &[u8]) -> NewKey
    ensures { KeyMade drng old seed.now personalisation.now result }
{
    let start = call_start(drng, b"cSHAKE-DRNG seed", b"KMAC-DRNG seed", &old).unwrap_or(NO_START);
    let mut sponge = start.sponge();
    let blocks = absorb_input(drng, &mut sponge, start.suffix, seed, personalisation);
    let mut key = [0u8; KEY_BYTES];
    sponge.squeeze(&mut key);
    NewKey {
        key,
        runs: start.blocks + blocks,
    }
}

// One piece (1.1.4 and 1.2.4): the new key, and as much of the stream as `out` takes.
pub fn piece(drng: Drng, old: [u8; KEY_BYTES], additional: &[u8], out: &mut [u8]) -> [u8; KEY_BYTES]
    ensures { PieceMade drng old additional.now (length out.old) result out.new }
{
    let start = call_start(drng, b"cSHAKE-DRNG generate", b"KMAC-DRNG generate", &old).unwrap_or(
        NO_START,
    );
    let mut sponge = start.sponge();
    absorb_input(drng, &mut sponge, start.suffix, b"", additional);
    let mut next_key = [0u8; KEY_BYTES];
    sponge.squeeze(&mut next_key);
    sponge.squeeze(out);
    next_key
}
