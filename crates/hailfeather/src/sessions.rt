// Running sessions: a session is a plain struct, passed by value and handed back.
ghost use Rattle.std.specs.Prelude.{◌≡◌, length};
ghost use Rattle.calls.specs.Start.{named, keyed};
ghost use Rattle.session_state.specs.Session.{begun, taking, giving, filled};
ghost use Rattle.c_session_state.specs.Session.{imported_session, exported_answer};

use c_session::{CSession, CSessionAnswer};

#[unsafe(no_mangle)]
pub extern "C" fn hf_session_cshake256(name: &[u8], customisation: &[u8]) -> CSessionAnswer
    ensures { result ≡ exported_answer (begun (named name.now customisation.now)) }
{
    c_session::start_cshake256(name, customisation)
}

#[unsafe(no_mangle)]
pub extern "C" fn hf_session_kmacxof256(key: &[u8], customisation: &[u8]) -> CSessionAnswer
    ensures { result ≡ exported_answer (begun (keyed key.now customisation.now)) }
{
    c_session::start_kmacxof256(key, customisation)
}

#[unsafe(no_mangle)]
pub extern "C" fn hf_session_take(session: CSession, piece: &[u8]) -> CSessionAnswer
    ensures { result ≡ exported_answer (taking (imported_session session) piece.now) }
{
    c_session::take(session, piece)
}

#[unsafe(no_mangle)]
pub extern "C" fn hf_session_give(session: CSession, out: &mut [u8]) -> CSessionAnswer
    ensures { (result ≡ exported_answer (giving (imported_session session) (length out.old)))
        × (out.new ≡ filled (imported_session session) out.old) }
{
    c_session::give(session, out)
}
