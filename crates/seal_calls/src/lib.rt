// The two calls of KMACXOF256 that a seal of the KMAC AEAD is made of (KMAC AEAD, 1.2.2 and 1.2.3), as the sponge runs them. Their contracts hold for strings
// of every length: what is refused is decided above.
#![tactic(auto)]

ghost use Rattle.std.specs.Prelude.{◌≡◌, ◌++◌, ◌+◌, length};
ghost use Rattle.calls.specs.Count.{output_runs};
ghost use Rattle.sponge.specs.Running.{state_of, squeezed, after};
ghost use Rattle.byte_strings.specs.Combined.{combined};
ghost use Rattle.aead.specs.Limits.{authentication_key_length};
ghost use Rattle.seal_calls.specs.SealCalls.{Begins, TagMade};

use aead::AUTHENTICATION_KEY_LENGTH;
use calls::output_runs;
use encode::RATE;
use message::absorb_message;
use sponge::Sponge;
use start::{NO_START, start_keyed};

// A key stream of which the authentication key has been squeezed.
#[derive(Clone, Copy)]
pub struct Stream {
    pub authentication: [u8; AUTHENTICATION_KEY_LENGTH],
    // What gives the rest.
    pub sponge: Sponge,
    // The permutations of the whole stream.
    pub runs: usize,
}

impl Stream {
    // The rest of the stream, squeezed into `out` and combined with the text there.
    pub fn combine(&mut self, text: &[u8], out: &mut [u8])
        ensures text { out.new ≡ combined text.now (squeezed (length out.old) (state_of self.old.sponge)) }
        ensures sponge { state_of self.new.sponge ≡ after (length out.old) (state_of self.old.sponge) }
        ensures authentication { self.new.authentication ≡ self.old.authentication }
        ensures runs { self.new.runs ≡ self.old.runs }
    {
        self.sponge.squeeze(out);
        byte_strings::combine(text, out);
    }
}

// The share in the permutations that the authentication key and n bytes more have, with no sum that could wrap.
fn stream_share(n: usize) -> usize
    ensures { result ≡ output_runs (authentication_key_length + n) }
{
    n / RATE + (n % RATE + AUTHENTICATION_KEY_LENGTH - 1) / RATE
}

// The key stream for a text of n bytes.
#[tactic(auto, using(start::proofs::Calls::start_or_none))]
pub fn begin_stream(key: &[u8], iv: &[u8], n: usize) -> Stream
    ensures { Begins key.now iv.now n result }
{
    let start = start_keyed(key, iv).unwrap_or(NO_START);
    let mut sponge = start.sponge();
    // An empty message, and right_encode(0).
    let blocks = absorb_message(&mut sponge, start.suffix, b"", b"", b"\x00\x01");
    let mut authentication = [0u8; AUTHENTICATION_KEY_LENGTH];
    sponge.squeeze(&mut authentication);
    Stream {
        authentication,
        sponge,
        runs: start.blocks + blocks + stream_share(n),
    }
}

// The tag over a ciphertext and a label; its permutations.
#[tactic(auto, using(start::proofs::Calls::start_or_none))]
pub fn make_tag(authentication: &[u8], ciphertext: &[u8], label: &[u8], tag: &mut [u8]) -> usize
    ensures { TagMade authentication.now ciphertext.now label.now tag.new (length tag.old) result }
{
    let n = tag.len();
    let start = start_keyed(authentication, b"").unwrap_or(NO_START);
    let mut sponge = start.sponge();
    // The last piece is right_encode(0).
    let blocks = absorb_message(&mut sponge, start.suffix, ciphertext, label, b"\x00\x01");
    sponge.squeeze(tag);
    start.blocks + blocks + output_runs(n)
}
