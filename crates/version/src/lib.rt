// The version of this library, so that a header and an archive of different versions are told apart.
#![tactic(auto)]

ghost use Rattle.std.specs.Prelude.{◌≡◌};
ghost use Rattle.version.specs.Version.{version};

// HF_VERSION of include/hailfeather.h: 0.3.0, two digits for each part.
const VERSION: u32 = 300;

pub fn version() -> u32
    ensures { result ≡ version }
{
    VERSION
}
