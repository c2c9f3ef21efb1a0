// Means of numbers by how many they are and by their sum, all in 32 bits.
#![tactic(auto)]

ghost use Rattle.std.specs.Prelude.{◌≡◌, ◌+◌, ◌*◌, ◌<◌, ltb};
ghost use Rattle.arithmetic.specs.Counting.{bit};
ghost use Rattle.means.specs.Means.{floor_mean, nearest_mean};

// The mean of n numbers with this sum, rounded down; 0 where there are none.
// Stays: 0 is what the definitions have for the mean of none (evaluated_of of estimates), so a caller would put it back (d).
pub fn floor_mean(n: u32, sum: u32) -> u32
    ensures { result ≡ floor_mean n sum }
{
    if n == 0 { 0 } else { sum / n }
}

// Whether what a division by n leaves goes up: more than half of n, or half of it where what it is left beside is odd,
// so that the even neighbour is above.
fn rounds_up(n: u32, rest: u32, odd: bool) -> bool
    requires { rest < n }
    ensures { result ≡ ltb n (2 * rest + bit odd) }
{
    n - rest < rest + (odd as u32)
}

// How far above low the mean of n numbers is that are together above n times low by this sum, to the nearest, a half
// going to the even neighbour; 0 where there are none: the whole part, and 1 more by the remainder.
pub fn nearest_mean(n: u32, sum: u32, low: u32) -> u32
    ensures { result ≡ nearest_mean n sum low }
{
    if n == 0 {
        return 0;
    }
    let whole = sum / n;
    let odd = low % 2 != whole % 2;
    whole + (rounds_up(n, sum % n, odd) as u32)
}
