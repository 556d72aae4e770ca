// A call in one go, after its start: the message and its ending put in, the input ended and the output squeezed, unless the call is refused.
#![tactic(auto, unfolding(crate::specs::Run::run_outcome, crate::specs::Run::run_written))]

ghost use Rattle.std.specs.Prelude.{◌≡◌, ◌<◌, length};
ghost use Rattle.encode.specs.Padding.{rate};
ghost use Rattle.sponge.specs.Running.{state_of, absorbed};
ghost use Rattle.one_shot.specs.Run.{runs_from, run_output, run_outcome, run_written};

use calls::output_runs;
use encode::RATE;
use sponge::Sponge;
use start::Started;

// The permutations of a start of so many blocks, of the message with its ending, and of the output. Within the limits nothing wraps.
fn runs(start: usize, message: usize, ending: usize, out: usize) -> usize
    ensures { result ≡ runs_from start message ending out }
{
    let input = message.wrapping_add(ending) / RATE + 1;
    start.wrapping_add(input + output_runs(out))
}

// The ending put in. It is an encoded number of a few bytes, which one by one cost less than a piece does.
fn absorb_ending(sponge: &mut Sponge, ending: &[u8])
    requires { sponge.old.position < rate }
    ensures { (state_of sponge.new ≡ absorbed (state_of sponge.old) ending.now) × (sponge.new.position < rate) }
{
    for &b in ending {
        sponge.absorb_byte(b);
    }
}

// The call run to its end, and `out` filled; its permutations.
fn run_to_end(start: Started, message: &[u8], ending: &[u8], out: &mut [u8]) -> usize
    ensures { (result ≡ runs_from start.blocks (length message.now) (length ending.now) (length out.old))
        × (out.new ≡ run_output start message.now ending.now (length out.old)) }
{
    let mut sponge = start.sponge();
    sponge.absorb(message);
    absorb_ending(&mut sponge, ending);
    sponge.finish(start.suffix);
    sponge.squeeze(out);
    runs(start.blocks, message.len(), ending.len(), out.len())
}

// The call, unless what was checked before refuses it: then nothing runs, and `out` stays as it was.
pub fn run<E>(
    checked: Result<(), E>,
    start: Started,
    message: &[u8],
    ending: &[u8],
    out: &mut [u8],
) -> Result<usize, E>
    ensures { (result ≡ run_outcome checked start message.now ending.now (length out.old))
        × (out.new ≡ run_written checked start message.now ending.now out.old) }
{
    if let Err(refusal) = checked {
        return Err(refusal);
    }
    Ok(run_to_end(start, message, ending, out))
}
