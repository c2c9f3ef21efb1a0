// Numbers as a person gives them to a program, in decimal digits, and reads them, in microseconds.
#![tactic(auto)]

ghost use Rattle.std.specs.Prelude.{◌≡◌, ◌*◌};
ghost use Rattle.model.specs.Ensemble.{ticks_per_second};
ghost use Rattle.model.specs.Planner.{ceil_div};
ghost use Rattle.number_parser.specs.Numerals.{grown, numeral, number_of};

// The number with one more digit; none for another character, or above 32 bits.
fn grow(value: u32, digit: u8) -> Option<u32>
    ensures { result ≡ number_of (grown value digit) }
{
    if !digit.is_ascii_digit() {
        return None;
    }
    value.checked_mul(10)?.checked_add((digit - b'0') as u32)
}

// The number that the digits of a text are. None: no digit, another character, or more than 32 bits.
pub fn number_in(text: &[u8]) -> Option<u32>
    ensures { result ≡ number_of (numeral text.now) }
{
    if text.is_empty() {
        return None;
    }
    let mut value: u32 = 0;
    'digits: for digit in text {
        value = grow(value, *digit)?;
    }
    Some(value)
}

// A number of ticks in microseconds, rounded up.
pub fn microseconds(ticks: u32) -> u64
    ensures { result ≡ ceil_div (ticks * 1000000) ticks_per_second }
{
    ((ticks as u64) * 1_000_000).div_ceil(16_777_216)
}
