// What the two ways to drop the m lowest and the m highest readings share.
#![tactic(auto)]

ghost use Rattle.std.specs.Prelude.{◌≡◌, cond, ◌<◌};
ghost use Rattle.arithmetic.specs.Words.{two_to32};
ghost use Rattle.dropping.specs.Dropping.{unfit_for};

// A number that is taken, or 0.
pub fn part(number: u32, taken: bool) -> u64
    ensures { (result ≡ cond taken number 0) × (result < two_to32) }
{
    if taken { number as u64 } else { 0 }
}

// Whether the lists are not those of at most 64 readings, or none is left.
pub fn unfit(marks: usize, values: usize, m: u8) -> bool
    ensures { result ≡ unfit_for marks values m }
{
    held::unfit(marks, values) | (marks <= 2 * (m as usize))
}
