// A session begins (docs/RULES.md, 'Sessions'): cSHAKE256 by its name and customisation, KMACXOF256 by its key and customisation.
#![tactic(auto, unfolding(session_state::specs::Session::begun))]

ghost use Rattle.std.specs.Prelude.{◌≡◌};
ghost use Rattle.calls.specs.Start.{named, keyed};
ghost use Rattle.session_state.specs.Session.{begun};

use session_state::{SessionAnswer, start_session};
use start::{start_keyed, start_named};

// A session of cSHAKE256. Refusals: 3 and 4.
pub fn start_cshake256(name: &[u8], customisation: &[u8]) -> SessionAnswer
    ensures { result ≡ begun (named name.now customisation.now) }
{
    start_session(start_named(name, customisation), false)
}

// A session of KMACXOF256. Refusals: 2 and 3.
pub fn start_kmacxof256(key: &[u8], customisation: &[u8]) -> SessionAnswer
    ensures { result ≡ begun (keyed key.now customisation.now) }
{
    start_session(start_keyed(key, customisation), true)
}
