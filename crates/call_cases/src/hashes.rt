// cSHAKE256, KMAC256 and KMACXOF256: the letters c, m and x take the answer into the checksum, C, M and X write it.
use crate::case;
use answers::{Outcome, Refusal};
use std::io;

pub fn answered(rt: &impl Print, input: &[u8], it: &[u8], letter: u8, sum: u64) -> io::Result<u64> {
    let mut out = [0xa5u8; 300];
    into(rt, input, it, letter, sum, &mut out)
}

// The call into the first bytes of the buffer.
fn into(
    rt: &impl Print,
    input: &[u8],
    it: &[u8],
    letter: u8,
    sum: u64,
    buffer: &mut [u8],
) -> io::Result<u64> {
    let n = case::output(it);
    if buffer.len() < n {
        return Ok(sum);
    }
    let outcome = Outcome::from(call(input, it, letter, &mut buffer[..n]));
    if letter < b'a' {
        case::print(rt, outcome.number, outcome.runs, testing::first(buffer, n))?;
        return Ok(sum);
    }
    let numbered = case::numbered(sum, outcome.number, outcome.runs);
    Ok(testing::add_bytes(numbered, buffer))
}

fn call(input: &[u8], it: &[u8], letter: u8, out: &mut [u8]) -> Result<usize, Refusal> {
    let named = case::string(input, it, case::FIRST);
    let customisation = case::string(input, it, case::SECOND);
    let message = case::string(input, it, case::THIRD);
    match letter {
        b'c' | b'C' => hash::cshake256(named, customisation, message, out),
        b'm' | b'M' => hash::kmac256(named, customisation, message, out),
        _ => hash::kmacxof256(named, customisation, message, out),
    }
}
