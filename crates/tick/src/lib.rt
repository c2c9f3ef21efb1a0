// Document 01, "The tick carries its own fixed figures": ticks, their bits, and the figures.
#![tactic(auto)]

ghost use Rattle.std.specs.Prelude.{◌≡◌};
ghost use Rattle.std.specs.Int.{w32};
ghost use Rattle.std.proofs.Common.{to_z, of_z};
ghost use Rattle.model.specs.Ensemble.{ticks_per_second, lowest_reading, highest_reading};

// A number of ticks: a reading, or a difference of readings.
#[derive(Clone, Copy, Debug, PartialEq, Eq)]
pub struct Tick(pub i32);

impl Tick {
    pub const PER_SECOND: u32 = 16_777_216;

    pub const LOWEST: i32 = -2_147_483_648;

    pub const HIGHEST: i32 = 2_147_483_647;

    // The reading that 32 bits in two's complement are.
    pub fn from_bits(bits: u32) -> Tick
        ensures { result.0 ≡ to_z w32 bits }
    {
        Tick(bits.cast_signed())
    }

    // The 32 bits in two's complement that a reading is.
    pub fn to_bits(self) -> u32
        ensures { result ≡ of_z w32 self.0 }
    {
        self.0.cast_unsigned()
    }
}

// Ticks in a second.
pub fn per_second() -> u32
    ensures { result ≡ ticks_per_second }
{
    Tick::PER_SECOND
}

// The lowest reading.
pub fn lowest() -> i32
    ensures { result ≡ lowest_reading }
{
    Tick::LOWEST
}

// The highest reading.
pub fn highest() -> i32
    ensures { result ≡ highest_reading }
{
    Tick::HIGHEST
}
