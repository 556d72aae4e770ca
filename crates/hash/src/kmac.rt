// KMAC256 (SP 800-185, 4.3): its output length is part of what it is fed.
ghost use Rattle.std.specs.Prelude.{◌≡◌, length};
ghost use Rattle.answers.specs.Done.{outcome_from};
ghost use Rattle.calls.specs.Call.{kmac256};
ghost use Rattle.hash.specs.Outcome.{outcome, written};

use answers::Refusal;
use encode::right_encode;
use one_shot::run;
use refusals::check_kmac256;
use start::start_keyed;

// KMAC256(key, message, 8 * out.len(), customisation); its permutations.
pub fn kmac256(
    key: &[u8],
    customisation: &[u8],
    message: &[u8],
    out: &mut [u8],
) -> Result<usize, Refusal>
    ensures { (outcome_from result ≡ outcome (kmac256 key.now message.now (length out.old) customisation.now))
        × (out.new
        ≡ written (kmac256 key.now message.now (length out.old) customisation.now) out.old) }
{
    let start = start_keyed(key, customisation)?;
    let checked = check_kmac256(message.len(), out.len());
    // Of an output that is not too long, in bits: nothing wraps there.
    let bits = right_encode((out.len() as u64).wrapping_mul(8));
    run(checked, start, message, bits.as_bytes(), out)
}
