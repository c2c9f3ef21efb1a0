// Ticks as a person reads them: in seconds, with nine decimals.
#![tactic(auto)]

ghost use Rattle.std.specs.Prelude.{◌≡◌};
ghost use Rattle.seconds.specs.Seconds.{whole_seconds, billionths, billionths_up, decimals};

// The whole seconds of some ticks.
pub fn whole(ticks: u64) -> u64
    ensures { result ≡ whole_seconds ticks }
{
    ticks / 16_777_216
}

// What is left of a second, in billionths, rounded down.
pub fn billionths(ticks: u64) -> u64
    ensures { result ≡ billionths ticks }
{
    ticks % 16_777_216 * 1_000_000_000 / 16_777_216
}

// The same, rounded up.
pub fn billionths_up(ticks: u64) -> u64
    ensures { result ≡ billionths_up ticks }
{
    (ticks % 16_777_216 * 1_000_000_000).div_ceil(16_777_216)
}

// The last nine decimal digits of a number.
pub fn decimals(number: u64) -> [u8; 9]
    ensures { result ≡ decimals number }
{
    // Stays: as specs/Seconds.antt says them; a loop is no shorter, and its proof has to show n / 10 / 10 ≡ n / 100.
    [
        48 + ((number / 100_000_000 % 10) as u8),
        48 + ((number / 10_000_000 % 10) as u8),
        48 + ((number / 1_000_000 % 10) as u8),
        48 + ((number / 100_000 % 10) as u8),
        48 + ((number / 10_000 % 10) as u8),
        48 + ((number / 1_000 % 10) as u8),
        48 + ((number / 100 % 10) as u8),
        48 + ((number / 10 % 10) as u8),
        48 + ((number / 1 % 10) as u8),
    ]
}
