// Sealing by the KMAC AEAD (KMAC AEAD, 1.2.4; docs/RULES.md, 'Sealing'). A refusal writes nothing. The crate `open` opens what this one sealed.
#![tactic(auto)]

ghost use Rattle.answers.specs.Done.{outcome_from};
ghost use Rattle.aead.specs.Aead.{seal_arguments};
ghost use Rattle.aead.specs.Answers.{Seals};
ghost use Rattle.seal.specs.Kmac.{kmac_aead};

use aead::{LEAST_TAG, Lengths};
use answers::Refusal;
use seal_calls::{begin_stream, make_tag};

// The shortest tags that sealing makes, as specs/Kmac.antt has them.
const LEAST_SEALED: usize = LEAST_TAG;

// Seals `text`: the ciphertext into `out`, which is as long, and the tag into `tag`. Answers the permutations.
pub fn seal(
    key: &[u8],
    iv: &[u8],
    text: &[u8],
    label: &[u8],
    out: &mut [u8],
    tag: &mut [u8],
) -> Result<usize, Refusal>
    ensures { Seals kmac_aead (seal_arguments key.now iv.now text.now label.now)
        out.old tag.old (outcome_from result) out.new tag.new }
{
    let lengths = Lengths {
        key: key.len(),
        iv: iv.len(),
        text: text.len(),
        label: label.len(),
        out: out.len(),
        tag: tag.len(),
    };
    lengths.check(LEAST_SEALED)?;
    let mut stream = begin_stream(key, iv, text.len());
    stream.combine(text, out);
    let tag_runs = make_tag(&stream.authentication, out, label, tag);
    Ok(stream.runs + tag_runs)
}
