// The encoded strings before the message, put into the sponge as they are made (SP 800-185, 2.3).
ghost use Rattle.std.specs.Prelude.{◌≡◌, ◌++◌, ◌+◌, ◌%◌, ◌<◌, ◌≤◌, length};
ghost use Rattle.encode.specs.Padding.{rate};
ghost use Rattle.encode.specs.Encode.{left_encode, encode_string, KMAC};
ghost use Rattle.sponge.specs.Running.{running, state_of, absorbed};
ghost use Rattle.start.specs.Limits.{longest_string};
ghost use Rattle.start.specs.Prefix.{Padded};

use encode::{RATE, left_code, left_encode};
use lanes_in::xor_word;
use sponge::Sponge;

// left_encode of the rate, 01 88, and the same with encode_string("KMAC") after it, 01 20 4B 4D 41 43, as the numbers of these bytes.
const ENCODED_RATE: u64 = 0x8801;

const RATE_AND_KMAC: u64 = 0x4341_4d4b_2001_8801;

// A string that is not refused for its length.
#[derive(Clone, Copy)]
pub struct Short<'a> {
    pub bytes: &'a [u8],
    ghost fits: { length bytes.now ≤ longest_string },
}

// left_encode(136) encode_string(s), as a bytepad begins; how many bytes they are.
fn absorb_first(sponge: &mut Sponge, s: Short) -> usize
    ensures { (result ≡ 2 + length (encode_string s.entry.bytes.now)) × (result ≤ 2 + (longest_string + 9))
        × (state_of sponge.new ≡ absorbed (running sponge.old.lanes 0) (left_encode rate ++ encode_string s.entry.bytes.now))
        × (sponge.new.position < rate) }
{
    let code = left_code((8 * s.bytes.len()) as u16);
    xor_word(&mut sponge.lanes, 0, ENCODED_RATE + code.word * 0x1_0000);
    let n = 2 + code.len;
    sponge.position = n;
    sponge.absorb(s.bytes);
    n + s.bytes.len()
}

// encode_string(s); how many bytes it is.
fn absorb_string(sponge: &mut Sponge, s: Short) -> usize
    ensures { (result ≡ length (encode_string s.entry.bytes.now)) × (result ≤ longest_string + 9)
        × (state_of sponge.new ≡ absorbed (running sponge.old.lanes (sponge.old.position % rate)) (encode_string s.entry.bytes.now))
        × (sponge.new.position < rate) }
{
    let code = left_encode(8 * (s.bytes.len() as u64));
    sponge.absorb(code.as_bytes());
    sponge.absorb(s.bytes);
    code.len + s.bytes.len()
}

// bytepad(encode_string(name) encode_string(customisation), 136); its number of blocks.
pub fn absorb_name(sponge: &mut Sponge, name: Short, customisation: Short) -> usize
    ensures { Padded (encode_string name.entry.bytes.now ++ encode_string customisation.entry.bytes.now) sponge.old sponge.new result }
{
    let named = absorb_first(sponge, name);
    let total = named + absorb_string(sponge, customisation);
    sponge.pad_zeros();
    total.div_ceil(RATE)
}

// The same of the name KMAC, which with the encoded rate fills the first lane.
pub fn absorb_kmac(sponge: &mut Sponge, customisation: Short) -> usize
    ensures { Padded (encode_string KMAC ++ encode_string customisation.entry.bytes.now) sponge.old sponge.new result }
{
    xor_word(&mut sponge.lanes, 0, RATE_AND_KMAC);
    let code = left_code((8 * customisation.bytes.len()) as u16);
    xor_word(&mut sponge.lanes, 1, code.word);
    let n = 8 + code.len;
    sponge.position = n;
    sponge.absorb(customisation.bytes);
    sponge.pad_zeros();
    (n + customisation.bytes.len()).div_ceil(RATE)
}

// bytepad(encode_string(key), 136); its number of blocks.
pub fn absorb_key(sponge: &mut Sponge, key: Short) -> usize
    ensures { Padded (encode_string key.entry.bytes.now) sponge.old sponge.new result }
{
    let total = absorb_first(sponge, key);
    sponge.pad_zeros();
    total.div_ceil(RATE)
}
