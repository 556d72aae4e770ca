// The two generators (cSHAKE-DRNG, 1.1, and KMAC-DRNG, 1.2; docs/RULES.md, 'Generators'), of which the caller names one: a state is passed by value and handed
// back, and a refusal hands back the state as it was and writes nothing.
#![tactic(auto)]

ghost use Rattle.std.specs.Prelude.{◌≡◌, ◌≤◌, length};
ghost use Rattle.calls.specs.Limits.{max_additional};
ghost use Rattle.pieces.specs.Pieces.{drawn};
ghost use Rattle.drng.specs.Calls.{generate};
ghost use Rattle.drng.specs.Drng.{seed_answer, draw_answer, draw_output};
ghost use Rattle.drng.specs.Counts.{piece_runs};

use drng::{Generator, GeneratorAnswer, KEY_BYTES, check_draw};
use generator_calls::{new_key, piece};
use pieces::{PIECE_BYTES, cut, piece_count};
use seeding::{Drng, check_seeding};

// A new key made of the old one, the seed and the personalisation.
#[tactic(auto, using(drng::proofs::Answers::seed_refused, crate::proofs::Done::seed_done))]
pub fn seed(
    drng: Drng,
    generator: Generator,
    seed: &[u8],
    personalisation: &[u8],
) -> GeneratorAnswer
    ensures { result ≡ seed_answer drng generator seed.now personalisation.now }
{
    match check_seeding(seed.len(), personalisation.len()) {
        Err(refusal) => GeneratorAnswer::refused(refusal, generator),
        Ok(()) => {
            let made = new_key(drng, generator.key, seed, personalisation);
            GeneratorAnswer::accepted(made.runs, made.key)
        }
    }
}

// `out` filled piece by piece (1.1.5 and 1.2.5); the key after the last piece.
fn draw_pieces(
    drng: Drng,
    old: [u8; KEY_BYTES],
    additional: &[u8],
    out: &mut [u8],
) -> [u8; KEY_BYTES]
    requires { length additional.now ≤ max_additional }
    ensures { (result ≡ (drawn (generate drng additional.now) (length out.old) old).key)
        × (out.new ≡ (drawn (generate drng additional.now) (length out.old) old).stream) }
{
    let n = out.len();
    let mut key = old;
    // By their places, since of what is written through chunks_mut() a proof knows only the length.
    for made in 0..piece_count(n) {
        let start = made * PIECE_BYTES;
        let end = start + cut(n - start);
        let next = piece(drng, key, additional, &mut out[start..end]);
        key = next;
    }
    key
}

// The permutations of a piece: numbers that are proved of each generator, and no conversion.
fn piece_runs(drng: Drng) -> usize
    ensures { result ≡ piece_runs drng }
{
    match drng {
        Drng::Cshake => 3,
        Drng::Kmac => 4,
    }
}

// `out` filled from the stream; the key moves on with each piece.
#[tactic(auto, using(crate::proofs::Done::draw_refused, crate::proofs::Done::draw_within, crate::proofs::Done::counts_fit, crate::proofs::Done::draw_done))]
pub fn draw(drng: Drng, generator: Generator, additional: &[u8], out: &mut [u8]) -> GeneratorAnswer
    ensures { (result ≡ draw_answer drng generator additional.now (length out.old))
        × (out.new ≡ draw_output drng generator additional.now out.old) }
{
    let n = out.len();
    match check_draw(generator.seeded, additional.len(), n) {
        Err(refusal) => GeneratorAnswer::refused(refusal, generator),
        Ok(()) => {
            let last = draw_pieces(drng, generator.key, additional, out);
            GeneratorAnswer::accepted(piece_runs(drng) * piece_count(n), last)
        }
    }
}
