// A session as C has it (docs/RULES.md, 'Sessions'): a plain struct, passed by value and handed back. The phase is a number, and its position stands beside it.
#![tactic(auto)]

ghost use Rattle.std.specs.Prelude.{◌≡◌};
ghost use Rattle.c_session_state.specs.Session.{imported_session, exported_session, exported_answer};

use answers::DONE;
use session_state::{Phase, Session, SessionAnswer};

#[repr(C)]
#[derive(Clone, Copy)]
pub struct CSession {
    pub lanes: [u64; 25],
    pub taken: usize,
    pub given: usize,
    pub limit: usize,
    pub position: usize,
    // 0 is taking; 1, or any other number, is giving.
    pub phase: u8,
    pub suffix: u8,
    // 0 is cSHAKE256; 1, or any other number, is KMACXOF256.
    pub kmac: u8,
}

#[repr(C)]
#[derive(Clone, Copy)]
pub struct CSessionAnswer {
    pub session: CSession,
    pub number: u8,
}

// The session that C lends.
impl From<CSession> for Session {
    ghost from_gives = { λ lent session. session ≡ imported_session lent };

    fn from(lent: CSession) -> Session {
        let lanes = lent.lanes;
        let phase = if lent.phase == 0 {
            Phase::Taking(lent.position)
        } else {
            Phase::Giving(lent.position)
        };
        Session {
            lanes,
            phase,
            taken: lent.taken,
            given: lent.given,
            limit: lent.limit,
            suffix: lent.suffix,
            kmac: c_flag::is_set(lent.kmac),
        }
    }
}

impl From<Session> for CSession {
    ghost from_gives = { λ session handed. handed ≡ exported_session session };

    fn from(session: Session) -> CSession {
        let lanes = session.lanes;
        let (phase, position) = match session.phase {
            Phase::Taking(position) => (0, position),
            Phase::Giving(position) => (1, position),
        };
        CSession {
            lanes,
            taken: session.taken,
            given: session.given,
            limit: session.limit,
            position,
            phase,
            suffix: session.suffix,
            kmac: c_flag::number_of(session.kmac),
        }
    }
}

// What C is handed back.
impl From<SessionAnswer> for CSessionAnswer {
    ghost from_gives = { λ answer handed. handed ≡ exported_answer answer };

    fn from(answer: SessionAnswer) -> CSessionAnswer {
        CSessionAnswer {
            session: CSession::from(answer.session),
            number: match answer.answer {
                Ok(()) => DONE,
                Err(refusal) => refusal.number(),
            },
        }
    }
}
