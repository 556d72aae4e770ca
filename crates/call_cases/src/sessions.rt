// Sessions: n and k start one of cSHAKE256 and of KMACXOF256, t takes a piece, g asks for output; all take the answer into the checksum. G writes it.
use crate::case;
use answers::{DONE, Refusal};
use session::{Session, SessionAnswer};
use std::io;

// A session, and the checksum so far.
#[derive(Clone, Copy)]
struct Step {
    session: Session,
    sum: u64,
}

fn unwritten() -> [u8; 65536] {
    [0xa5u8; 65536]
}

pub fn run(rt: &impl Print, input: &[u8], from: usize, cases: usize) -> io::Result<()> {
    let mut session = session::start_cshake256(b"", b"").session;
    let mut at = from;
    let mut sum: u64 = 0;
    for _ in 0..cases {
        let step = answered(rt, input, testing::rest(input, at), session, sum)?;
        session = step.session;
        sum = step.sum;
        at = case::next(at, case::SHORT);
    }
    Ok(())
}

fn answered(
    rt: &impl Print,
    input: &[u8],
    it: &[u8],
    session: Session,
    sum: u64,
) -> io::Result<Step> {
    let letter = testing::byte_at(it, 0);
    match letter {
        b'h' | b'e' => {
            let text = case::string(input, it, case::FIRST);
            let sum = case::line(rt, letter, text, sum)?;
            Ok(Step { session, sum })
        }
        b'g' | b'G' => {
            let mut out = unwritten();
            into(rt, it, letter, session, sum, &mut out)
        }
        _ => Ok(stepped(called(input, it, letter, session), sum)),
    }
}

fn called(input: &[u8], it: &[u8], letter: u8, session: Session) -> SessionAnswer {
    let first = case::string(input, it, case::FIRST);
    let second = case::string(input, it, case::SECOND);
    match letter {
        b'n' => session::start_cshake256(first, second),
        b'k' => session::start_kmacxof256(first, second),
        _ => session::take(session, first),
    }
}

fn number_of(answer: Result<(), Refusal>) -> u8 {
    match answer {
        Ok(()) => DONE,
        Err(refusal) => refusal.number(),
    }
}

fn stepped(answer: SessionAnswer, sum: u64) -> Step {
    let session = answer.session;
    Step {
        session,
        sum: testing::add_number(sum, u64::from(number_of(answer.answer))),
    }
}

// The ask for the first bytes of the buffer; the checksum takes in the bytes lent.
fn into(
    rt: &impl Print,
    it: &[u8],
    letter: u8,
    session: Session,
    sum: u64,
    buffer: &mut [u8],
) -> io::Result<Step> {
    let n = case::output(it);
    if buffer.len() < n {
        return Ok(Step { session, sum });
    }
    let answer = session::give(session, &mut buffer[..n]);
    if letter == b'G' {
        case::print(rt, number_of(answer.answer), 0, testing::first(buffer, n))?;
    }
    Ok(stepped(answer, testing::add_bytes(sum, testing::first(buffer, n))))
}
