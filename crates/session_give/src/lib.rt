// A session gives output, in portions (docs/RULES.md, 'Sessions').
#![tactic(auto, unfolding(session_state::specs::Session::giving, session_state::specs::Session::filled))]

ghost use Rattle.std.specs.Prelude.{◌≡◌, length};
ghost use Rattle.session_state.specs.Session.{giving, filled};

use answers::{Refusal, over_total};
use session_end::giving_sponge;
use session_state::{Phase, Session, SessionAnswer};

// The next bytes of output, which fill `out`; from then on the session is giving, be `out` empty. Refusal: 6 where the total would exceed the limit.
pub fn give(s: Session, out: &mut [u8]) -> SessionAnswer
    ensures { (result ≡ giving s (length out.old)) × (out.new ≡ filled s out.old) }
{
    let n = out.len();
    if let Err(refusal) = over_total(s.given, n, s.limit, Refusal::BadOutputLength) {
        return SessionAnswer {
            answer: Err(refusal),
            session: s,
        };
    }
    let mut sponge = giving_sponge(s);
    sponge.squeeze(out);
    let lanes = sponge.lanes;
    SessionAnswer {
        answer: Ok(()),
        session: Session {
            lanes,
            phase: Phase::Giving(sponge.position),
            given: s.given + n,
            ..s
        },
    }
}
