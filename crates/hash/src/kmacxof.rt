// KMACXOF256 (SP 800-185, 4.3.1).
ghost use Rattle.std.specs.Prelude.{◌≡◌, length};
ghost use Rattle.answers.specs.Done.{outcome_from};
ghost use Rattle.calls.specs.Call.{kmacxof256};
ghost use Rattle.hash.specs.Outcome.{outcome, written};

use answers::Refusal;
use one_shot::run;
use refusals::check_extendable;
use start::start_keyed;

// KMACXOF256(key, message, 8 * out.len(), customisation); its permutations. cSHAKE256's lines with another start and ending: one function for both would take
// these two as arguments and spare one line.
pub fn kmacxof256(
    key: &[u8],
    customisation: &[u8],
    message: &[u8],
    out: &mut [u8],
) -> Result<usize, Refusal>
    ensures { (outcome_from result ≡ outcome (kmacxof256 key.now message.now (length out.old) customisation.now))
        × (out.new
        ≡ written (kmacxof256 key.now message.now (length out.old) customisation.now) out.old) }
{
    let start = start_keyed(key, customisation)?;
    let checked = check_extendable(message.len(), out.len());
    // right_encode(0)
    run(checked, start, message, b"\x00\x01", out)
}
