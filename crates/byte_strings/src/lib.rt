// What is done to strings of bytes, whatever they are for: combining by exclusive or, and comparing without a branch that the bytes steer.
#![tactic(auto)]

ghost use Rattle.std.specs.Prelude.{◌≡◌, length, take};
ghost use Rattle.calls.specs.Start.{same_bytes};
ghost use Rattle.byte_strings.specs.Combined.{combined, differences};

// The stream in `out` combined with the text by exclusive or, as far as the text reaches.
pub fn combine(text: &[u8], out: &mut [u8])
    ensures { out.new ≡ combined text.now out.old }
{
    // By the places, since of what is written through iter_mut() a zip tells a proof only the length.
    for i in 0..text.len().min(out.len()) {
        out[i] ^= text[i];
    }
}

// The differences of the bytes of two strings, as far as both reach, joined by or: the bytes steer no branch.
fn differences(a: &[u8], b: &[u8]) -> u8
    ensures { result ≡ differences a.now b.now }
{
    a.iter().zip(b).fold(0, |joined, (x, y)| joined | (*x ^ *y))
}

// Whether `bytes` begin with the tag. Every byte of the tag is compared, whether or not one before it differed: only the verdict steers a branch.
#[tactic(auto, using(crate::proofs::Comparing::compared_all, crate::proofs::Comparing::compared_short))]
pub fn same_beginning(tag: &[u8], bytes: &[u8]) -> bool
    ensures { result ≡ same_bytes tag.now (take (length tag.now) bytes.now) }
{
    tag.len() <= bytes.len() && differences(tag, bytes) == 0
}
