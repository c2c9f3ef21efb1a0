// The version of the library and the programs.
#![tactic(auto)]

ghost use Rattle.std.specs.Prelude.{◌≡◌};
ghost use Rattle.version.specs.Version.{version_number, version_text};

// Major × 2^16 + minor × 2^8 + patch.
pub fn number() -> u32
    ensures { result ≡ version_number }
{
    1_792
}

// Major, minor and patch, parted by full stops.
pub fn text() -> &'static str
    ensures { result.now ≡ version_text }
{
    "0.7.0"
}
