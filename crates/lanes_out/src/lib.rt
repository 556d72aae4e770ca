// Bytes out of the lanes of a block (FIPS 202, B.1): single bytes, and runs of lanes.
#![tactic(auto)]

ghost use Rattle.std.specs.Prelude.{◌≡◌, ◌+◌, ◌-◌, ◌*◌, ◌%◌, ◌<◌, ◌≤◌, min, length};
ghost use Rattle.std.proofs.lemmas.List.Edits.{sets};
ghost use Rattle.fips202.specs.Bytes.{byte_at, bytes_at};
ghost use Rattle.encode.specs.Padding.{rate};

use encode::RATE;

// The byte `p`.
fn byte_at(lanes: &[u64; 25], p: usize) -> u8
    requires { p < rate }
    ensures { result ≡ byte_at lanes.now p }
{
    lanes[p / 8].to_le_bytes()[p % 8]
}

// The lanes from lane `q` on into `out`, which has room for whole ones.
fn put_lanes(out: &mut [u8], lanes: &[u64; 25], q: usize)
    requires { (length out.old % 8 ≡ 0) × (8 * q + length out.old ≤ rate) }
    ensures { out.new ≡ bytes_at lanes.now (8 * q) (length out.old) }
{
    let m = out.len() / 8;
    for (i, lane) in lanes[q..q + m].iter().enumerate() {
        out[8 * i..8 * i + 8].copy_from_slice(&lane.to_le_bytes());
    }
}

// The bytes from byte `p` on into `out`, one by one.
fn put_few(out: &mut [u8], lanes: &[u64; 25], p: usize)
    requires { p + length out.old ≤ rate }
    ensures { out.new ≡ bytes_at lanes.now p (length out.old) }
{
    for (i, byte) in out.iter_mut().enumerate() {
        *byte = byte_at(lanes, p + i);
    }
}

// The bytes from lane `q` on into `out`: whole lanes, and then fewer than eight bytes.
fn put_rest(out: &mut [u8], lanes: &[u64; 25], q: usize)
    requires { 8 * q + length out.old ≤ rate }
    ensures { out.new ≡ bytes_at lanes.now (8 * q) (length out.old) }
{
    let whole = out.len() / 8 * 8;
    put_lanes(&mut out[..whole], lanes, q);
    put_few(&mut out[whole..], lanes, 8 * q + whole);
}

// The bytes from byte `p` on into `out`, where the block has them: those before a lane begins, and the rest. It is not inlined, so that `put_out` is, where
// whole blocks are squeezed.
#[inline(never)]
fn put_some(out: &mut [u8], lanes: &[u64; 25], p: usize)
    requires { p + length out.old ≤ rate }
    ensures { out.new ≡ bytes_at lanes.now p (length out.old) }
{
    let begun = (8 - p % 8) % 8;
    if out.len() < begun {
        put_few(out, lanes, p);
        return;
    }
    put_few(&mut out[..begun], lanes, p);
    put_rest(&mut out[begun..], lanes, (p + begun) / 8);
}

// As many bytes as the block has from byte `p` on, and `out` has room for from `at` on, into it; how many they are. It takes a slice and a place, as
// docs/CONTRACTS.md has it, and so answers where the place is past the end, too.
pub fn put_out(out: &mut [u8], at: usize, lanes: &[u64; 25], p: usize) -> usize
    ensures { (result ≡ min (rate - p) (length out.old - at))
        × (out.new ≡ sets out.old at (bytes_at lanes.now p result)) }
{
    if RATE <= p {
        return 0;
    }
    if out.len() <= at {
        return 0;
    }
    let n = (out.len() - at).min(RATE - p);
    if n == RATE {
        put_lanes(&mut out[at..at + RATE], lanes, 0);
    } else {
        put_some(&mut out[at..at + n], lanes, p);
    }
    n
}
