// cSHAKE256, KMAC256 and KMACXOF256 in one call (SP 800-185, 3.3, 4.3 and 4.3.1). A refusal writes nothing and reports no runs.
#![tactic(auto)]

mod cshake; // cshake.rt: cSHAKE256
mod kmac; // kmac.rt: KMAC256
mod kmacxof; // kmacxof.rt: KMACXOF256

pub use cshake::cshake256;
pub use kmac::kmac256;
pub use kmacxof::kmacxof256;
