// A seeding of a generator as the call that it is made of (cSHAKE-DRNG, 1.1.3, and KMAC-DRNG, 1.2.3; docs/RULES.md, 'Generators'): its definition and its laws
// stand in specs/, and the code is which generators there are, and what a seeding of either is refused for.
#![tactic(auto, using(answers::proofs::Turns::asked_in_turn), unfolding(crate::specs::Seeding::seed_lengths_refusal))]

ghost use Rattle.std.specs.Prelude.{◌≡◌};
ghost use Rattle.answers.specs.Done.{answered};
ghost use Rattle.seeding.specs.Seeding.{seed_lengths_refusal};

use answers::{Refusal, over};

// The paper's two generators, by the function that each is made of.
#[derive(Clone, Copy)]
pub enum Drng {
    // cSHAKE-DRNG: cSHAKE256.
    Cshake,
    // KMAC-DRNG: KMACXOF256.
    Kmac,
}

// The limits of `calls`, specs/Limits.antt.
pub const MAX_PERSONALISATION: usize = 84;

pub const MAX_SEED: usize = 65536;

// What a seeding with a seed and a personalisation of these lengths is refused for.
pub fn check_seeding(seed: usize, personalisation: usize) -> Result<(), Refusal>
    ensures { result ≡ answered (seed_lengths_refusal seed personalisation) tt }
{
    over(personalisation, MAX_PERSONALISATION, Refusal::StringTooLong)?;
    over(seed, MAX_SEED, Refusal::InputTooLong)
}
