// The two generators: their state is a plain struct, passed by value and handed back. In C each has a type of its own, of the same layout.
ghost use Rattle.std.specs.Prelude.{◌≡◌, length};
ghost use Rattle.seeding.specs.declared.Drng.TheVariants.{Cshake, Kmac};
ghost use Rattle.drng.specs.State.{fresh_generator};
ghost use Rattle.drng.specs.Drng.{seed_answer, draw_answer, draw_output};
ghost use Rattle.c_generator_state.specs.Generator.{imported_generator, exported_generator, exported_answer};

use c_generator_state::{CGenerator, CGeneratorAnswer};
use seeding::Drng;

#[unsafe(no_mangle)]
pub extern "C" fn hf_generator_fresh() -> CGenerator
    ensures { result ≡ exported_generator fresh_generator }
{
    CGenerator::default()
}

#[unsafe(no_mangle)]
pub extern "C" fn hf_generator_seed(
    generator: CGenerator,
    seed: &[u8],
    personalisation: &[u8],
) -> CGeneratorAnswer
    ensures { result ≡ exported_answer (seed_answer Cshake (imported_generator generator) seed.now personalisation.now) }
{
    c_generator::seed(Drng::Cshake, generator, seed, personalisation)
}

#[unsafe(no_mangle)]
pub extern "C" fn hf_generator_draw(
    generator: CGenerator,
    additional: &[u8],
    out: &mut [u8],
) -> CGeneratorAnswer
    ensures { (result ≡ exported_answer (draw_answer Cshake (imported_generator generator) additional.now (length out.old)))
        × (out.new ≡ draw_output Cshake (imported_generator generator) additional.now out.old) }
{
    c_generator::draw(Drng::Cshake, generator, additional, out)
}

#[unsafe(no_mangle)]
pub extern "C" fn hf_kmac_generator_fresh() -> CGenerator
    ensures { result ≡ exported_generator fresh_generator }
{
    CGenerator::default()
}

#[unsafe(no_mangle)]
pub extern "C" fn hf_kmac_generator_seed(
    generator: CGenerator,
    seed: &[u8],
    personalisation: &[u8],
) -> CGeneratorAnswer
    ensures { result ≡ exported_answer (seed_answer Kmac (imported_generator generator) seed.now personalisation.now) }
{
    c_generator::seed(Drng::Kmac, generator, seed, personalisation)
}

#[unsafe(no_mangle)]
pub extern "C" fn hf_kmac_generator_draw(
    generator: CGenerator,
    additional: &[u8],
    out: &mut [u8],
) -> CGeneratorAnswer
    ensures { (result ≡ exported_answer (draw_answer Kmac (imported_generator generator) additional.now (length out.old)))
        × (out.new ≡ draw_output Kmac (imported_generator generator) additional.now out.old) }
{
    c_generator::draw(Drng::Kmac, generator, additional, out)
}
