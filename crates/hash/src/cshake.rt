// cSHAKE256 (SP 800-185, 3.3).
ghost use Rattle.std.specs.Prelude.{◌≡◌, length};
ghost use Rattle.answers.specs.Done.{outcome_from};
ghost use Rattle.calls.specs.Call.{cshake256};
ghost use Rattle.hash.specs.Outcome.{outcome, written};

use answers::Refusal;
use one_shot::run;
use refusals::check_extendable;
use start::start_named;

// cSHAKE256(message, 8 * out.len(), name, customisation); its permutations.
pub fn cshake256(
    name: &[u8],
    customisation: &[u8],
    message: &[u8],
    out: &mut [u8],
) -> Result<usize, Refusal>
    ensures { (outcome_from result ≡ outcome (cshake256 message.now (length out.old) name.now customisation.now))
        × (out.new
        ≡ written (cshake256 message.now (length out.old) name.now customisation.now) out.old) }
{
    let start = start_named(name, customisation)?;
    let checked = check_extendable(message.len(), out.len());
    run(checked, start, message, b"", out)
}
