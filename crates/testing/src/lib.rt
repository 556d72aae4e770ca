// What the gate's programs share: parts of a slice and numbers in it, and a checksum.
#![tactic(auto)]

ghost use Rattle.std.specs.Prelude.{◌≡◌, take, drop, get_or};
ghost use Rattle.testing.specs.Data.{add_number, add_bytes, word_of};

// The first n bytes, or all where there are fewer.
pub fn first(bytes: &[u8], n: usize) -> &[u8]
    ensures { result.now ≡ take n bytes.now }
{
    bytes.get(..n).unwrap_or(bytes)
}

// The bytes after the first n, none where there are fewer.
pub fn rest(bytes: &[u8], n: usize) -> &[u8]
    ensures { result.now ≡ drop n bytes.now }
{
    bytes.get(n..).unwrap_or(&[])
}

// The byte at a place, 0 past the end.
pub fn byte_at(bytes: &[u8], i: usize) -> u8
    ensures { result ≡ get_or bytes.now i 0 }
{
    bytes.get(i).copied().unwrap_or(0)
}

// The number that the first four bytes make, lowest byte first.
pub fn word(bytes: &[u8]) -> u32
    ensures { result ≡ word_of bytes.now }
{
    u32::from_le_bytes([
        byte_at(bytes, 0),
        byte_at(bytes, 1),
        byte_at(bytes, 2),
        byte_at(bytes, 3),
    ])
}

// The checksum of what came before, taken on by one number; below 2^32 - 5, the modulus.
pub fn add_number(sum: u64, number: u64) -> u64
    ensures { result ≡ add_number sum number }
{
    ((sum % 4294967291) * 257 + number % 4294967291 + 1) % 4294967291
}

// The checksum taken on by bytes, one after the other.
pub fn add_bytes(sum: u64, bytes: &[u8]) -> u64
    ensures { result ≡ add_bytes sum bytes.now }
{
    let mut all = sum;
    for byte in bytes {
        all = add_number(all, u64::from(*byte));
    }
    all
}
