// Opening by the KMAC AEAD (KMAC AEAD, 1.2.5; docs/RULES.md, 'Sealing'). A refusal writes nothing, and the tag is compared before anything is written.
#![tactic(auto)]

ghost use Rattle.answers.specs.Done.{outcome_from};
ghost use Rattle.aead.specs.Aead.{seal_arguments};
ghost use Rattle.aead.specs.Answers.{OpensInto};
ghost use Rattle.seal.specs.Kmac.{kmac_aead};

use aead::{LEAST_TAG, LONGEST_TAG, Lengths};
use answers::Refusal;
use byte_strings::same_beginning;
use seal_calls::{begin_stream, make_tag};

// The shortest tags that opening takes, as seal/specs/Kmac.antt has them.
const LEAST_OPENED: usize = LEAST_TAG;

// Opens `ciphertext`: the text into `out`, which is as long, if the tag is the one worked out afresh. Answers the permutations.
pub fn open(
    key: &[u8],
    iv: &[u8],
    ciphertext: &[u8],
    label: &[u8],
    out: &mut [u8],
    tag: &[u8],
) -> Result<usize, Refusal>
    ensures { OpensInto kmac_aead (seal_arguments key.now iv.now ciphertext.now label.now)
        out.old tag.now (outcome_from result) out.new }
{
    let lengths = Lengths {
        key: key.len(),
        iv: iv.len(),
        text: ciphertext.len(),
        label: label.len(),
        out: out.len(),
        tag: tag.len(),
    };
    lengths.check(LEAST_OPENED)?;
    let mut stream = begin_stream(key, iv, ciphertext.len());
    let mut expected = [0u8; LONGEST_TAG];
    let tag_runs = make_tag(&stream.authentication, ciphertext, label, &mut expected);
    if !same_beginning(tag, &expected) {
        return Err(Refusal::TagMismatch);
    }
    stream.combine(ciphertext, out);
    Ok(stream.runs + tag_runs)
}
