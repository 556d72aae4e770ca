// Keccak-p[1600, 24], and cSHAKE256, KMAC256 and KMACXOF256 in one call.
ghost use Rattle.std.specs.Prelude.{◌≡◌, length};
ghost use Rattle.fips202.specs.Fips202.{keccak_p};
ghost use Rattle.calls.specs.Call.{cshake256, kmac256, kmacxof256};
ghost use Rattle.hash.specs.Outcome.{outcome, written};

use answers::Outcome;

// Keccak-p[1600, 24] of 25 lanes where they stand.
#[unsafe(no_mangle)]
pub extern "C" fn hf_keccak_p(lanes: &mut [u64; 25])
    ensures { lanes.new ≡ keccak_p lanes.old }
{
    keccak::permute(lanes);
}

#[unsafe(no_mangle)]
pub extern "C" fn hf_cshake256(
    name: &[u8],
    customisation: &[u8],
    message: &[u8],
    out: &mut [u8],
) -> Outcome
    ensures { (result ≡ outcome (cshake256 message.now (length out.old) name.now customisation.now))
        × (out.new
        ≡ written (cshake256 message.now (length out.old) name.now customisation.now) out.old) }
{
    Outcome::from(hash::cshake256(name, customisation, message, out))
}

#[unsafe(no_mangle)]
pub extern "C" fn hf_kmac256(
    key: &[u8],
    customisation: &[u8],
    message: &[u8],
    out: &mut [u8],
) -> Outcome
    ensures { (result ≡ outcome (kmac256 key.now message.now (length out.old) customisation.now))
        × (out.new
        ≡ written (kmac256 key.now message.now (length out.old) customisation.now) out.old) }
{
    Outcome::from(hash::kmac256(key, customisation, message, out))
}

#[unsafe(no_mangle)]
pub extern "C" fn hf_kmacxof256(
    key: &[u8],
    customisation: &[u8],
    message: &[u8],
    out: &mut [u8],
) -> Outcome
    ensures { (result ≡ outcome (kmacxof256 key.now message.now (length out.old) customisation.now))
        × (out.new
        ≡ written (kmacxof256 key.now message.now (length out.old) customisation.now) out.old) }
{
    Outcome::from(hash::kmacxof256(key, customisation, message, out))
}
