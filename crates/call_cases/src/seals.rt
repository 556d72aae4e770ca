// Sealing and opening. l seals, and opens what its buffers then hold; o opens, its tag standing after the label, as many bytes as the second word says: both
// take the answers into the checksum. O writes what o is answered. Strings: key, IV, text and label.
use crate::case;
use answers::Outcome;
use std::io;

pub fn answered(rt: &impl Print, input: &[u8], it: &[u8], letter: u8, sum: u64) -> io::Result<u64> {
    let mut out = [0xa5u8; 300];
    let mut tag = [0xa5u8; 65];
    if letter == b'l' {
        let sealed = sealed_into(input, it, sum, &mut out, &mut tag);
        let mut back = [0xa5u8; 300];
        let ciphertext = testing::first(&out, case::length(it, case::THIRD));
        return opened_into(
            rt,
            input,
            it,
            letter,
            sealed,
            ciphertext,
            testing::first(&tag, case::tag(it)),
            &mut back,
        );
    }
    opened_into(
        rt,
        input,
        it,
        letter,
        sum,
        case::string(input, it, case::THIRD),
        behind(input, it),
        &mut out,
    )
}

// Seals into the first bytes of both buffers; the checksum after it.
fn sealed_into(input: &[u8], it: &[u8], sum: u64, out: &mut [u8], tag: &mut [u8]) -> u64 {
    let n = case::output(it);
    let t = case::tag(it);
    if out.len() < n || tag.len() < t {
        return sum;
    }
    let sealed = seal::seal(
        case::string(input, it, case::FIRST),
        case::string(input, it, case::SECOND),
        case::string(input, it, case::THIRD),
        case::string(input, it, case::FOURTH),
        &mut out[..n],
        &mut tag[..t],
    );
    let outcome = Outcome::from(sealed);
    testing::add_bytes(
        testing::add_bytes(case::numbered(sum, outcome.number, outcome.runs), out),
        tag,
    )
}

// Opens into the first bytes of the buffer; the checksum after it, unless a line is written.
fn opened_into(
    rt: &impl Print,
    input: &[u8],
    it: &[u8],
    letter: u8,
    sum: u64,
    ciphertext: &[u8],
    tag: &[u8],
    out: &mut [u8],
) -> io::Result<u64> {
    let n = case::output(it);
    if out.len() < n {
        return Ok(sum);
    }
    let opened = open::open(
        case::string(input, it, case::FIRST),
        case::string(input, it, case::SECOND),
        ciphertext,
        case::string(input, it, case::FOURTH),
        &mut out[..n],
        tag,
    );
    let outcome = Outcome::from(opened);
    if letter == b'O' {
        case::print(rt, outcome.number, outcome.runs, testing::first(out, n))?;
        return Ok(sum);
    }
    let numbered = case::numbered(sum, outcome.number, outcome.runs);
    Ok(testing::add_bytes(numbered, out))
}

// The tag of an opening: bytes after the label.
fn behind<'a>(input: &'a [u8], it: &[u8]) -> &'a [u8] {
    let label = testing::rest(it, case::FOURTH);
    let rest = testing::rest(
        testing::rest(input, case::word(label, 0)),
        case::word(label, 4),
    );
    testing::first(rest, case::tag(it))
}
