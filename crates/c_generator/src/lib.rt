// The generators as C calls them (docs/RULES.md, 'Generators'): the entries of `generator`, on the state that C has. The crate `hailfeather` gives these
// functions their names in C, for each of the two generators.
#![tactic(auto)]

ghost use Rattle.std.specs.Prelude.{◌≡◌, length};
ghost use Rattle.drng.specs.Drng.{seed_answer, draw_answer, draw_output};
ghost use Rattle.c_generator_state.specs.Generator.{imported_generator, exported_answer};

use c_generator_state::{CGenerator, CGeneratorAnswer};
use drng::Generator;
use seeding::Drng;

pub fn seed(
    drng: Drng,
    generator: CGenerator,
    seed: &[u8],
    personalisation: &[u8],
) -> CGeneratorAnswer
    ensures { result ≡ exported_answer (seed_answer drng (imported_generator generator) seed.now personalisation.now) }
{
    let state = Generator::from(generator);
    CGeneratorAnswer::from(generator::seed(drng, state, seed, personalisation))
}

pub fn draw(
    drng: Drng,
    generator: CGenerator,
    additional: &[u8],
    out: &mut [u8],
) -> CGeneratorAnswer
    ensures { (result ≡ exported_answer (draw_answer drng (imported_generator generator) additional.now (length out.old)))
        × (out.new ≡ draw_output drng (imported_generator generator) additional.now out.old) }
{
    let state = Generator::from(generator);
    CGeneratorAnswer::from(generator::draw(drng, state, additional, out))
}
