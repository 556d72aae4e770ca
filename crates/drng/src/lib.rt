// What both generators have (cSHAKE-DRNG, 1.1, and KMAC-DRNG, 1.2; docs/RULES.md, 'Generators'): the state, what a seeding or a draw hands back, and what
// a draw is refused for. What keys and pieces are made of stands in specs/. A state is passed by value and handed back.
#![tactic(auto, using(answers::proofs::Turns::asked_in_turn), unfolding(crate::specs::Drng::draw_refusal))]

ghost use Rattle.std.specs.Prelude.{◌≡◌};
ghost use Rattle.answers.specs.Done.{answered};
ghost use Rattle.drng.specs.State.{fresh_generator, refused, accepted};
ghost use Rattle.drng.specs.Drng.{draw_refusal};

use answers::{Refusal, over};
use calls::MAX_OUTPUT;

// The limit of `calls`, specs/Limits.antt.
pub const MAX_ADDITIONAL: usize = 84;

// The bytes of a key: `key_bytes` of `seeding`, specs/Seeding.antt.
pub const KEY_BYTES: usize = 64;

// A flag beside the key, and no Option of a key: C lends any key with either flag, and the first seeding takes in the key of a state that was never seeded.
#[derive(Clone, Copy)]
pub struct Generator {
    pub key: [u8; KEY_BYTES],
    // Whether it was ever seeded.
    pub seeded: bool,
}

// The state before the first seeding.
impl Default for Generator {
    ghost is_default = { λ generator. generator ≡ fresh_generator };

    fn default() -> Generator {
        Generator {
            key: [0u8; KEY_BYTES],
            seeded: false,
        }
    }
}

// What a seeding or a draw hands back: the permutations it took, or what it is refused for, and the state after it.
#[derive(Clone, Copy)]
pub struct GeneratorAnswer {
    pub answer: Result<usize, Refusal>,
    pub generator: Generator,
}

impl GeneratorAnswer {
    // The state as it was.
    pub fn refused(refusal: Refusal, generator: Generator) -> GeneratorAnswer
        ensures { result ≡ refused refusal generator }
    {
        GeneratorAnswer {
            answer: Err(refusal),
            generator,
        }
    }

    // A seeding or a draw that is done: its runs, and a seeded state with its key.
    pub fn accepted(runs: usize, key: [u8; KEY_BYTES]) -> GeneratorAnswer
        ensures { result ≡ accepted runs key }
    {
        GeneratorAnswer {
            answer: Ok(runs),
            generator: Generator { key, seeded: true },
        }
    }
}

// What a draw of `bytes` with an additional input of this length is refused for.
pub fn check_draw(seeded: bool, additional: usize, bytes: usize) -> Result<(), Refusal>
    ensures { result ≡ answered (draw_refusal seeded additional bytes) tt }
{
    if !seeded {
        return Err(Refusal::WrongState);
    }
    over(additional, MAX_ADDITIONAL, Refusal::StringTooLong)?;
    over(bytes, MAX_OUTPUT, Refusal::BadOutputLength)
}
