// The message of a call in three pieces, put into the sponge after the call's start, with the padding (FIPS 202, chapter 4). What a function puts after its
// message, such as right_encode(0), is the last piece.
#![tactic(auto)]

ghost use Rattle.std.specs.Prelude.{◌≡◌, ◌++◌, ◌+◌, ◌/◌};
ghost use Rattle.encode.specs.Padding.{rate};
ghost use Rattle.message.specs.Message.{MessageAbsorbed};

use encode::RATE;
use sponge::Sponge;

// The blocks of a padded message whose pieces have these lengths, with no sum that could wrap.
#[tactic(auto, using(crate::proofs::Blocks::blocks_joined))]
fn block_count(first: usize, second: usize, last: usize) -> usize
    ensures { result ≡ (first + second + last) / rate + 1 }
{
    let ends = first % RATE + second % RATE + last % RATE;
    first / RATE + second / RATE + last / RATE + ends / RATE + 1
}

// A sponge that stands at position 0 takes the message and the padding; the permutations that took. Output starts at position 0.
// The pieces are three parameters: as one slice of slices the callers' contracts would join lists of lists, and the count's sum could wrap.
pub fn absorb_message(
    sponge: &mut Sponge,
    suffix: u8,
    first: &[u8],
    second: &[u8],
    last: &[u8],
) -> usize
    ensures { MessageAbsorbed suffix sponge.old ((first.now ++ second.now) ++ last.now) sponge.new result }
{
    sponge.absorb(first);
    sponge.absorb(second);
    sponge.absorb(last);
    sponge.finish(suffix);
    block_count(first.len(), second.len(), last.len())
}
