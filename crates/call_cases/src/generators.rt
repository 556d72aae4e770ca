// The generators: f is a fresh one, s seeds the cSHAKE generator, d draws from it; number, runs and key are written, and of a draw the output. D writes a
// checksum of the output. k, m and M do the same with the KMAC generator.
use crate::case;
use answers::Outcome;
use drng::{Generator, GeneratorAnswer};
use seeding::Drng;
use std::io;

fn unwritten() -> [u8; 524288] {
    [0xaau8; 524288]
}

pub fn run(rt: &impl Print, input: &[u8], from: usize, cases: usize) -> io::Result<()> {
    let mut generator = Generator::default();
    let mut at = from;
    for _ in 0..cases {
        generator = answered(rt, input, testing::rest(input, at), generator)?;
        at = case::next(at, case::SHORT);
    }
    Ok(())
}

// The generator that a case is of.
fn drng_of(letter: u8) -> Drng {
    match letter {
        b'k' | b'm' | b'M' => Drng::Kmac,
        _ => Drng::Cshake,
    }
}

fn answered(
    rt: &impl Print,
    input: &[u8],
    it: &[u8],
    generator: Generator,
) -> io::Result<Generator> {
    let letter = testing::byte_at(it, 0);
    let first = case::string(input, it, case::FIRST);
    match letter {
        b'h' => {
            case::line(rt, letter, first, 0)?;
            Ok(generator)
        }
        b'f' => Ok(Generator::default()),
        b's' | b'k' => {
            let second = case::string(input, it, case::SECOND);
            printed(
                rt,
                generator::seed(drng_of(letter), generator, first, second),
            )
        }
        _ => {
            let mut out = unwritten();
            into(rt, it, letter, first, generator, &mut out)
        }
    }
}

fn printed(rt: &impl Print, answer: GeneratorAnswer) -> io::Result<Generator> {
    let outcome = Outcome::from(answer.answer);
    let generator = answer.generator;
    case::print(rt, outcome.number, outcome.runs, &generator.key)?;
    Ok(generator)
}

// A draw into the first bytes of the buffer.
fn into(
    rt: &impl Print,
    it: &[u8],
    letter: u8,
    additional: &[u8],
    generator: Generator,
    buffer: &mut [u8],
) -> io::Result<Generator> {
    let n = case::output(it);
    if buffer.len() < n {
        return Ok(generator);
    }
    let drawn = generator::draw(drng_of(letter), generator, additional, &mut buffer[..n]);
    let after = printed(rt, drawn)?;
    match letter {
        b'd' | b'm' => printing::print_bytes(rt, testing::first(buffer, n))?,
        _ => {
            case::line(rt, letter, b"", testing::add_bytes(0, buffer))?;
        }
    }
    Ok(after)
}
