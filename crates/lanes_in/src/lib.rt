// Bytes put into the lanes of a block by exclusive or (FIPS 202, B.1): single bytes, numbers of eight bytes, and pieces.
#![tactic(auto)]

ghost use Rattle.std.specs.Prelude.{◌≡◌, ◌+◌, ◌-◌, ◌*◌, ◌/◌, ◌%◌, ◌<◌, ◌≤◌, min, length, take, drop};
ghost use Rattle.fips202.specs.Bytes.{xor_byte, xor_bytes};
ghost use Rattle.encode.specs.Digits.{digits};
ghost use Rattle.encode.specs.Padding.{rate};
ghost use Rattle.lanes_in.specs.Words.{word_at};

use encode::RATE;

// The eight bytes of `s` from `at` on as a number; 0 where there are not so many.
#[tactic(auto, using(crate::specs::Laws::Lanes::no_word))]
pub fn word_at(s: &[u8], at: usize) -> u64
    ensures { result ≡ word_at s.now at }
{
    // The tests in these words, and not `get`: a caller that has made the second one for a block saves them for its words (2 per cent of a long absorb).
    if s.len() < 8 {
        return 0;
    }
    if s.len() - 8 < at {
        return 0;
    }
    let Some(bytes) = s[at..at + 8].first_chunk() else {
        return 0
    };
    u64::from_le_bytes(*bytes)
}

// The byte `b` put in at byte `p` of the block.
fn xor_at(lanes: &mut [u64; 25], p: usize, b: u8)
    requires { p < rate }
    ensures { lanes.new ≡ xor_byte lanes.old p b }
{
    lanes[p / 8] ^= u64::from(b) << (8 * (p % 8));
}

// The bytes of `piece` put in from byte `p` on, one by one.
fn xor_few(lanes: &mut [u64; 25], p: usize, piece: &[u8])
    requires { p + length piece.now ≤ rate }
    ensures { lanes.new ≡ xor_bytes lanes.old p piece.now }
{
    for (i, b) in piece.iter().enumerate() {
        xor_at(lanes, p + i, *b);
    }
}

// The bytes of `piece` put in from byte `p` on, where the block has room for them: lane by lane, and one by one only if they are fewer than eight. A shift
// drops the bytes of the first eight that belong to the next lane, and those of the last eight that a lane before has.
fn xor_some(lanes: &mut [u64; 25], p: usize, piece: &[u8])
    requires { p + length piece.now ≤ rate }
    ensures { lanes.new ≡ xor_bytes lanes.old p piece.now }
{
    let Some(first) = piece.first_chunk() else {
        xor_few(lanes, p, piece);
        return;
    };
    lanes[p / 8] ^= u64::from_le_bytes(*first) << (8 * (p % 8));
    // What follows would do nothing, but a call with a piece of eight bytes takes 1 per cent less for this test.
    if piece.len() == 8 - p % 8 {
        return;
    }
    let next = p / 8 + 1;
    let (words, rest) = piece[8 - p % 8..].as_chunks::<8>();
    for (i, word) in words.iter().enumerate() {
        lanes[next + i] ^= u64::from_le_bytes(*word);
    }
    let Some(last) = piece.last_chunk() else {
        return
    };
    if rest.len() != 0 {
        lanes[next + words.len()] ^= u64::from_le_bytes(*last) >> (64 - 8 * rest.len());
    }
}

// The byte `b` put in at byte `p` of the block, p taken modulo the block's length.
pub fn xor_byte(lanes: &mut [u64; 25], p: usize, b: u8)
    ensures { lanes.new ≡ xor_byte lanes.old (p % rate) b }
{
    xor_at(lanes, p % RATE, b);
}

// The eight bytes of the word `w`, the lowest first, put in at lane `i` of the block, i taken modulo its number of lanes.
#[tactic(auto, using(crate::proofs::Lanes::word_put))]
pub fn xor_word(lanes: &mut [u64; 25], i: usize, w: u64)
    ensures { lanes.new ≡ xor_bytes lanes.old (8 * (i % (rate / 8))) (digits 256 8 w) }
{
    lanes[i % (RATE / 8)] ^= w;
}

// As many bytes of `s` from `at` on as the block has room for from byte `p` on; how many they are. It takes a slice and a place, as docs/CONTRACTS.md has it,
// and so answers where the place is past the end, too.
#[tactic(auto, unfolding(fips202::specs::Bytes::xor_bytes))]
pub fn xor_in(lanes: &mut [u64; 25], p: usize, s: &[u8], at: usize) -> usize
    ensures { (result ≡ min (rate - p) (length s.now - at))
        × (lanes.new ≡ xor_bytes lanes.old p (take result (drop at s.now))) }
{
    let Some(piece) = s.get(at..) else { return 0 };
    if RATE <= p {
        return 0;
    }
    let n = piece.len().min(RATE - p);
    xor_some(lanes, p, &piece[..n]);
    n
}
