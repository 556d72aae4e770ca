// Encoded numbers as SP 800-185, section 2.3.1, has them: right_encode and left_encode of any
// number of 64 bits, and left_encode of 16 bits as one number. The definitions are those of specs/Encode.antt.
#![tactic(auto)]

ghost use Rattle.std.specs.Prelude.{◌≡◌, ◌<◌, ◌≤◌, take};
ghost use Rattle.encode.specs.Digits.{width};
ghost use Rattle.encode.specs.Encode.{left_encode, right_encode};
ghost use Rattle.encode.specs.Answer.{Answers, code_of};
ghost use Rattle.encode.specs.Private.{PlacedAt};

// The bytes of a block of the sponge, the rate of the 256 bit variants (SP 800-185, 3.2).
pub const RATE: usize = 136;

// An encoded number: its first `len` bytes. The others are 0. Nine bytes and a length, since the library uses no heap.
#[derive(Clone, Copy)]
pub struct Encoded {
    pub bytes: [u8; 9],
    pub len: usize,
}

impl Encoded {
    // The code, without the zeros after it.
    pub fn as_bytes(&self) -> &[u8]
        ensures { result.now ≡ take self.now.len self.now.bytes }
    {
        &self.bytes[..self.len.min(9)]
    }
}

// The fewest bytes, at least one, that hold `n`.
fn width_of(n: u64) -> usize
    ensures { (result ≡ width 256 n) × (result ≤ 8) }
{
    n.max(1).ilog(256) as usize + 1
}

// The fewest bytes that hold `n`, at least one, the highest first, put from place `at` of nine on; the length is the place after them.
fn placed(at: usize, n: u64) -> Encoded
    requires { at ≤ 1 }
    ensures { PlacedAt at n result }
{
    let width = width_of(n);
    let len = at + width;
    let mut bytes = [0u8; 9];
    bytes[at..len].copy_from_slice(&n.to_be_bytes()[8 - width..]);
    Encoded { bytes, len }
}

// The bytes of `n`, then their number.
#[tactic(auto, using(crate::proofs::BigEndian::right_answers))]
pub fn right_encode(n: u64) -> Encoded
    ensures { Answers (right_encode n) result }
{
    let mut code = placed(0, n);
    code.bytes[code.len] = code.len as u8;
    code.len += 1;
    code
}

// The number of the bytes of `n`, then the bytes.
#[tactic(auto, using(crate::proofs::BigEndian::left_answers))]
pub fn left_encode(n: u64) -> Encoded
    ensures { Answers (left_encode n) result }
{
    let mut code = placed(1, n);
    code.bytes[0] = (code.len - 1) as u8;
    code
}

// An encoded number of at most eight bytes, as one word, the first byte the lowest, and how many they are.
#[derive(Clone, Copy)]
pub struct Code {
    pub word: u64,
    pub len: usize,
}

// left_encode of a number of 16 bits, such as the length in bits of any string that is not refused.
#[tactic(auto, using(crate::proofs::Codes::one_byte, crate::proofs::Codes::two_bytes))]
pub fn left_code(n: u16) -> Code
    ensures { (result ≡ code_of (left_encode n)) × (result.word < 0x100_0000) × (result.len ≤ 3) }
{
    let x = u64::from(n);
    if x < 0x100 {
        return Code {
            word: 1 + x * 0x100,
            len: 2,
        };
    }
    Code {
        word: 2 + x / 0x100 * 0x100 + x % 0x100 * 0x1_0000,
        len: 3,
    }
}
