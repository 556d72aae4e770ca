// Running sessions as C calls them (docs/RULES.md, 'Sessions'): the entries of `session`, on the session that C has. The crate `hailfeather` gives these
// functions their names in C.
#![tactic(auto)]

ghost use Rattle.std.specs.Prelude.{◌≡◌, length};
ghost use Rattle.calls.specs.Start.{named, keyed};
ghost use Rattle.session_state.specs.Session.{begun, taking, giving, filled};
ghost use Rattle.c_session_state.specs.Session.{imported_session, exported_answer};

pub use c_session_state::{CSession, CSessionAnswer};
use session::Session;

pub fn start_cshake256(name: &[u8], customisation: &[u8]) -> CSessionAnswer
    ensures { result ≡ exported_answer (begun (named name.now customisation.now)) }
{
    CSessionAnswer::from(session::start_cshake256(name, customisation))
}

pub fn start_kmacxof256(key: &[u8], customisation: &[u8]) -> CSessionAnswer
    ensures { result ≡ exported_answer (begun (keyed key.now customisation.now)) }
{
    CSessionAnswer::from(session::start_kmacxof256(key, customisation))
}

pub fn take(session: CSession, piece: &[u8]) -> CSessionAnswer
    ensures { result ≡ exported_answer (taking (imported_session session) piece.now) }
{
    CSessionAnswer::from(session::take(Session::from(session), piece))
}

pub fn give(session: CSession, out: &mut [u8]) -> CSessionAnswer
    ensures { (result ≡ exported_answer (giving (imported_session session) (length out.old)))
        × (out.new ≡ filled (imported_session session) out.old) }
{
    CSessionAnswer::from(session::give(Session::from(session), out))
}
