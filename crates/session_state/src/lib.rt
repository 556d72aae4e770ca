// A running session over cSHAKE256 or KMACXOF256 (docs/RULES.md, 'Sessions'), passed by value: what each call on it hands back is defined here
// (specs/Session.antt), and the session that a start hands back is made.
#![tactic(auto, unfolding(crate::specs::Session::started_session))]

ghost use Rattle.std.specs.Prelude.{◌≡◌};
ghost use Rattle.session_state.specs.Session.{started_session};

use answers::Refusal;
use calls::MAX_OUTPUT;
use start::Started;

// Taking the message, or giving output, with the position of the next byte in the block: two states of a session, neither of which is a failure.
#[derive(Clone, Copy)]
pub enum Phase {
    Taking(usize),
    Giving(usize),
}

// Plain values that go in and come back: C lends any of them, and every one is answered.
#[derive(Clone, Copy)]
pub struct Session {
    pub lanes: [u64; 25],
    pub phase: Phase,
    // The caller's bytes so far: of the message, without the bytes before and after it, and of the output.
    pub taken: usize,
    pub given: usize,
    // The most bytes that it gives: none for a session that could not start.
    pub limit: usize,
    // The byte after the input: 1F for SHAKE256, else 04.
    pub suffix: u8,
    // Whether it is of KMACXOF256: right_encode(0) then follows the message.
    pub kmac: bool,
}

// What a call hands back: whether it was done or what it is refused for, and the session after it.
#[derive(Clone, Copy)]
pub struct SessionAnswer<E = Refusal> {
    pub answer: Result<(), E>,
    pub session: Session,
}

// A session that could not start: it is giving, and has nothing to give.
const UNSTARTED: Session = Session {
    lanes: [0u64; 25],
    phase: Phase::Giving(0),
    taken: 0,
    given: 0,
    limit: 0,
    suffix: 0,
    kmac: false,
};

// The session of a start, whatever a start is refused with.
pub fn start_session<E>(start: Result<Started, E>, kmac: bool) -> SessionAnswer<E>
    ensures { result ≡ started_session start kmac }
{
    match start {
        Ok(started) => {
            let lanes = started.lanes;
            SessionAnswer {
                answer: Ok(()),
                session: Session {
                    lanes,
                    phase: Phase::Taking(0),
                    taken: 0,
                    given: 0,
                    limit: MAX_OUTPUT,
                    suffix: started.suffix,
                    kmac,
                },
            }
        }
        Err(refusal) => SessionAnswer {
            answer: Err(refusal),
            session: UNSTARTED,
        },
    }
}
