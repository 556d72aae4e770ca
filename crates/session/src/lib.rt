// Running sessions over cSHAKE256 and KMACXOF256 (docs/RULES.md, 'Sessions'): the message taken in pieces, then the output given in portions.
// A session is passed by value and handed back with what the call came to; a refusal hands back the same session and writes nothing.
// The entries, under one name; what holds of calls in a row, accepted and refused, is stated in specs/.
#![tactic(auto)]

pub use session_give::give;
pub use session_start::{start_cshake256, start_kmacxof256};
pub use session_state::{Phase, Session, SessionAnswer};
pub use session_take::take;
