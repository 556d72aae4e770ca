// A session takes the message, in pieces (docs/RULES.md, 'Sessions').
#![tactic(auto, unfolding(session_state::specs::Session::taking_in))]

ghost use Rattle.std.specs.Prelude.{◌≡◌};
ghost use Rattle.session_state.specs.Session.{taking};

use answers::{Refusal, over_total};
use calls::MAX_MESSAGE;
use session_state::{Phase, Session, SessionAnswer};
use sponge::Sponge;

// A piece of the message. Refusals: 1 where the session is giving, 5 where the total with this piece exceeds the limit.
pub fn take(s: Session, piece: &[u8]) -> SessionAnswer
    ensures { result ≡ taking s piece.now }
{
    let Phase::Taking(position) = s.phase else {
        return SessionAnswer {
            answer: Err(Refusal::WrongState),
            session: s,
        };
    };
    if let Err(refusal) = over_total(s.taken, piece.len(), MAX_MESSAGE, Refusal::InputTooLong) {
        return SessionAnswer {
            answer: Err(refusal),
            session: s,
        };
    }
    let lanes = s.lanes;
    let mut sponge = Sponge { lanes, position };
    sponge.absorb(piece);
    let lanes = sponge.lanes;
    SessionAnswer {
        answer: Ok(()),
        session: Session {
            lanes,
            phase: Phase::Taking(sponge.position),
            taken: s.taken + piece.len(),
            ..s
        },
    }
}
