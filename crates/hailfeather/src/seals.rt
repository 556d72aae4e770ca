// Sealing and opening.
ghost use Rattle.aead.specs.Aead.{seal_arguments};
ghost use Rattle.aead.specs.Answers.{Seals, OpensInto};
ghost use Rattle.seal.specs.Kmac.{kmac_aead};

use answers::Outcome;

#[unsafe(no_mangle)]
pub extern "C" fn hf_seal(
    key: &[u8],
    iv: &[u8],
    text: &[u8],
    label: &[u8],
    out: &mut [u8],
    tag: &mut [u8],
) -> Outcome
    ensures { Seals kmac_aead (seal_arguments key.now iv.now text.now label.now)
        out.old tag.old result out.new tag.new }
{
    Outcome::from(seal::seal(key, iv, text, label, out, tag))
}

#[unsafe(no_mangle)]
pub extern "C" fn hf_open(
    key: &[u8],
    iv: &[u8],
    ciphertext: &[u8],
    label: &[u8],
    out: &mut [u8],
    tag: &[u8],
) -> Outcome
    ensures { OpensInto kmac_aead (seal_arguments key.now iv.now ciphertext.now label.now)
        out.old tag.now result out.new }
{
    Outcome::from(open::open(key, iv, ciphertext, label, out, tag))
}
