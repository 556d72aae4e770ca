// How a call or a session starts: the bytes before the message put into the sponge (SP 800-185, 3.3 and 4.3), or the refusals 2, 3 and 4.
#![tactic(auto)]

ghost use Rattle.std.specs.Prelude.{◌≡◌};
ghost use Rattle.calls.specs.Start.{named, keyed};
ghost use Rattle.sponge.specs.Running.{running, state_of};
ghost use Rattle.start.specs.Started.{Starts};

use answers::Refusal;
use prefix::{Short, absorb_key, absorb_kmac, absorb_name};
use refusals::{check_keyed, check_named};
use sponge::Sponge;

mod prefix;

// The sponge after the prefix. The message begins at position 0 of the next block.
#[derive(Clone, Copy)]
pub struct Started {
    pub lanes: [u64; 25],
    // The byte after the message: 1F for SHAKE256, else 04.
    pub suffix: u8,
    // The permutations run.
    pub blocks: usize,
}

impl Started {
    // The sponge as the message finds it.
    pub fn sponge(&self) -> Sponge
        ensures { state_of result ≡ running self.now.lanes 0 }
    {
        Sponge {
            lanes: self.lanes,
            position: 0,
        }
    }
}

// What stands for the start where it is refused and the caller goes on all the same.
pub const NO_START: Started = Started {
    lanes: [0u64; 25],
    suffix: 0,
    blocks: 0,
};

// The start of cSHAKE256.
#[tactic(auto, using(crate::proofs::Answers::for_named))]
pub fn start_named(name: &[u8], customisation: &[u8]) -> Result<Started, Refusal>
    ensures { Starts (named name.now customisation.now) result }
{
    check_named(name, customisation)?;
    if name.is_empty() && customisation.is_empty() {
        return Ok(Started {
            suffix: 0x1f,
            ..NO_START
        });
    }
    let mut sponge = Sponge::new();
    let name = Short { bytes: name };
    let customisation = Short {
        bytes: customisation,
    };
    let blocks = absorb_name(&mut sponge, name, customisation);
    Ok(Started {
        lanes: sponge.lanes,
        suffix: 0x04,
        blocks,
    })
}

// The start of KMAC256 and KMACXOF256.
#[tactic(auto, using(crate::proofs::Answers::for_keyed))]
pub fn start_keyed(key: &[u8], customisation: &[u8]) -> Result<Started, Refusal>
    ensures { Starts (keyed key.now customisation.now) result }
{
    check_keyed(key, customisation)?;
    let mut sponge = Sponge::new();
    let name_blocks = absorb_kmac(
        &mut sponge,
        Short {
            bytes: customisation,
        },
    );
    let key_blocks = absorb_key(&mut sponge, Short { bytes: key });
    Ok(Started {
        lanes: sponge.lanes,
        suffix: 0x04,
        blocks: name_blocks + key_blocks,
    })
}
