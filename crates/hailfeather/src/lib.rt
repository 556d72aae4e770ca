// The library as C links it: each function is one entry of the crates below, under a name `hf_..`, with that entry's contract. A `&[u8]` passes as a pointer
// and a length. Nothing is done here but handing on and, where C has a struct, making it of the answer.
#![tactic(auto)]

mod hashes; // hashes.rt: the permutation and the hash functions
mod sessions; // sessions.rt: running sessions
mod seals; // seals.rt: sealing and opening
mod generators; // generators.rt: the two generators
mod plans; // plans.rt: the chute plan
mod halls; // halls.rt: the hall plan

ghost use Rattle.std.specs.Prelude.{◌≡◌};
ghost use Rattle.version.specs.Version.{version};

#[unsafe(no_mangle)]
pub extern "C" fn hf_version() -> u32
    ensures { result ≡ version }
{
    version::version()
}
