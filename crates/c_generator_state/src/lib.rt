// A generator's state as C has it (docs/RULES.md, 'Generators'): a plain struct, passed by value and handed back.
#![tactic(auto)]

ghost use Rattle.std.specs.Prelude.{◌≡◌};
ghost use Rattle.drng.specs.State.{fresh_generator};
ghost use Rattle.c_generator_state.specs.Generator.{imported_generator, exported_generator, exported_answer};

use answers::Outcome;
use drng::{Generator, GeneratorAnswer, KEY_BYTES};

#[repr(C)]
#[derive(Clone, Copy)]
pub struct CGenerator {
    pub key: [u8; KEY_BYTES],
    // 0 is never seeded.
    pub seeded: u8,
}

#[repr(C)]
#[derive(Clone, Copy)]
pub struct CGeneratorAnswer {
    pub generator: CGenerator,
    pub runs: usize,
    pub number: u8,
}

// The state that C lends.
impl From<CGenerator> for Generator {
    ghost from_gives = { λ lent state. state ≡ imported_generator lent };

    fn from(lent: CGenerator) -> Generator {
        let key = lent.key;
        let seeded = c_flag::is_set(lent.seeded);
        Generator { key, seeded }
    }
}

impl From<Generator> for CGenerator {
    ghost from_gives = { λ state given. given ≡ exported_generator state };

    fn from(state: Generator) -> CGenerator {
        let key = state.key;
        let seeded = c_flag::number_of(state.seeded);
        CGenerator { key, seeded }
    }
}

impl Default for CGenerator {
    ghost is_default = { λ given. given ≡ exported_generator fresh_generator };

    fn default() -> CGenerator {
        CGenerator::from(Generator::default())
    }
}

// What C is handed back.
impl From<GeneratorAnswer> for CGeneratorAnswer {
    ghost from_gives = { λ answer given. given ≡ exported_answer answer };

    fn from(answer: GeneratorAnswer) -> CGeneratorAnswer {
        let generator = CGenerator::from(answer.generator);
        let Outcome { runs, number } = Outcome::from(answer.answer);
        CGeneratorAnswer {
            generator,
            runs,
            number,
        }
    }
}
