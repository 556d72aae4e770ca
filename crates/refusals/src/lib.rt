// What a start and a call in one go are refused for, as code tests it (docs/RULES.md, 'Numbers'). The definitions are those of `calls`; sessions and one-shot
// calls share the start's.
#![tactic(auto, using(crate::proofs::Names::pointwise_is_same, answers::proofs::Turns::asked_in_turn), unfolding(calls::specs::Start::start_refusal))]

ghost use Rattle.std.specs.Prelude.{◌≡◌};
ghost use Rattle.answers.specs.Numbers.{done};
ghost use Rattle.answers.specs.Done.{answered};
ghost use Rattle.calls.specs.Start.{named, keyed, start_refusal};
ghost use Rattle.calls.specs.Call.{KMAC256, KMACXOF256, call_refusal};

use answers::{Refusal, over};
use calls::{KMAC, MAX_CUSTOMISATION, MAX_KEY, MAX_MESSAGE, MAX_NAME, MAX_OUTPUT};

// What cSHAKE256 with this name and this customisation is refused for.
pub fn check_named(name: &[u8], customisation: &[u8]) -> Result<(), Refusal>
    ensures { result ≡ answered (start_refusal (named name.now customisation.now)) tt }
{
    over(name.len(), MAX_NAME, Refusal::StringTooLong)?;
    over(
        customisation.len(),
        MAX_CUSTOMISATION,
        Refusal::StringTooLong,
    )?;
    if name == KMAC.as_slice() {
        return Err(Refusal::ReservedName);
    }
    Ok(())
}

// What KMAC256 and KMACXOF256 with this key and this customisation are refused for.
pub fn check_keyed(key: &[u8], customisation: &[u8]) -> Result<(), Refusal>
    ensures { result ≡ answered (start_refusal (keyed key.now customisation.now)) tt }
{
    over(key.len(), MAX_KEY, Refusal::BadKeyLength)?;
    over(
        customisation.len(),
        MAX_CUSTOMISATION,
        Refusal::StringTooLong,
    )
}

// What an extendable function is refused for after its start: a message and an output of these lengths.
pub fn check_extendable(message: usize, out: usize) -> Result<(), Refusal>
    ensures { result ≡ answered (call_refusal KMACXOF256 done message out) tt }
{
    over(message, MAX_MESSAGE, Refusal::InputTooLong)?;
    over(out, MAX_OUTPUT, Refusal::BadOutputLength)
}

// The same for KMAC256, which refuses an empty output too.
pub fn check_kmac256(message: usize, out: usize) -> Result<(), Refusal>
    ensures { result ≡ answered (call_refusal KMAC256 done message out) tt }
{
    check_extendable(message, out)?;
    if out == 0 {
        return Err(Refusal::BadOutputLength);
    }
    Ok(())
}
