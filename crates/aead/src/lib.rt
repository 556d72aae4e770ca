// What seals made of a key stream and a tag have in common, whatever makes the two (docs/RULES.md, 'Sealing'): the refusals by lengths. The definitions and
// the theorems over any key stream and any tag stand in specs/.
#![tactic(auto, using(answers::proofs::Turns::asked_in_turn), unfolding(crate::specs::Refusals::lengths_refusal))]

ghost use Rattle.std.specs.Prelude.{◌≡◌};
ghost use Rattle.answers.specs.Done.{answered};
ghost use Rattle.aead.specs.Refusals.{lengths_refusal};

use answers::{Refusal, over, over_total};
use calls::{MAX_CUSTOMISATION, MAX_MESSAGE};

// The lengths of specs/Limits.antt.
pub const SEALING_KEY_LENGTH: usize = 32;

pub const AUTHENTICATION_KEY_LENGTH: usize = 32;

pub const LEAST_TAG: usize = 16;

pub const LONGEST_TAG: usize = 64;

// The lengths of what sealing and opening are lent.
#[derive(Clone, Copy)]
pub struct Lengths {
    pub key: usize,
    pub iv: usize,
    pub text: usize,
    pub label: usize,
    pub out: usize,
    pub tag: usize,
}

impl Lengths {
    // What they are refused for, where a tag has `least` bytes or more.
    pub fn check(self, least: usize) -> Result<(), Refusal>
        ensures { result ≡ answered (lengths_refusal least self.key self.iv self.text self.label self.out self.tag) tt }
    {
        if self.key != SEALING_KEY_LENGTH {
            return Err(Refusal::BadKeyLength);
        }
        over(self.iv, MAX_CUSTOMISATION, Refusal::StringTooLong)?;
        over_total(self.text, self.label, MAX_MESSAGE, Refusal::InputTooLong)?;
        if self.out != self.text {
            return Err(Refusal::BadOutputLength);
        }
        if self.tag < least || LONGEST_TAG < self.tag {
            return Err(Refusal::BadTagLength);
        }
        Ok(())
    }
}
