// The input of a generator's call (cSHAKE-DRNG, 1.1.2 to 1.1.4, and KMAC-DRNG, 1.2.2 to 1.2.4), as the sponge takes it, for strings of every length: its start,
// and what stands after it.
#![tactic(auto)]

ghost use Rattle.std.specs.Prelude.{◌++◌};
ghost use Rattle.start.specs.Started.{Starts};
ghost use Rattle.message.specs.Message.{MessageAbsorbed};
ghost use Rattle.seeding.specs.Seeding.{call_start};
ghost use Rattle.generator_input.specs.Input.{byte_suffixed, ending_of};

use answers::Refusal;
use message::absorb_message;
use seeding::Drng;
use sponge::Sponge;
use start::{Started, start_keyed, start_named};

// How a generator's call starts from its key: with a name for cSHAKE256, with a customisation for KMACXOF256.
pub fn call_start(
    drng: Drng,
    name: &[u8],
    customisation: &[u8],
    key: &[u8],
) -> Result<Started, Refusal>
    ensures { Starts (call_start drng name.now customisation.now key.now) result }
{
    match drng {
        Drng::Cshake => start_named(name, key),
        Drng::Kmac => start_keyed(key, customisation),
    }
}

// After the start: `seed`, then `string` with a byte of its length (1.1.2), and right_encode(0) where it is KMACXOF256; the permutations that took.
#[tactic(auto, using(crate::proofs::Joined::cshake_input, crate::proofs::Joined::kmac_input_lem))]
pub fn absorb_input(
    drng: Drng,
    sponge: &mut Sponge,
    suffix: u8,
    seed: &[u8],
    string: &[u8],
) -> usize
    ensures { MessageAbsorbed suffix sponge.old ((seed.now ++ byte_suffixed string.now) ++ ending_of drng)
        sponge.new result }
{
    let length = (string.len() % 256) as u8;
    match drng {
        Drng::Cshake => absorb_message(sponge, suffix, seed, string, &[length]),
        Drng::Kmac => absorb_message(sponge, suffix, seed, string, &[length, 0x00, 0x01]),
    }
}
