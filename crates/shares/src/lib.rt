// Document 01, "The planner", and document 02, "Paper 4": the window's shares for some of N cabinets, rounded up, or
// their whole part plus one, of any settings.
#![tactic(auto)]

ghost use Rattle.std.specs.Prelude.{cond, ◌&&◌, ◌≡◌, ◌*◌, ◌-◌, ◌≤◌, eqb};
ghost use Rattle.arithmetic.specs.Words.{two_to32};
ghost use Rattle.model.specs.Planner.{ceil_div, past_div, next_window, growth};
ghost use Rattle.model.specs.RoundSheet.{cca, median};

use model::{CCA, MEDIAN, Settings};

// parts × window
fn product(settings: Settings, parts: u32) -> u64
    ensures value { result ≡ parts * settings.window }
    ensures bound { result ≤ (two_to32 - 1) * (two_to32 - 1) }
{
    (parts as u64) * (settings.window as u64)
}

// ⌈parts × window / N⌉; 0 where N is 0.
pub fn share(settings: Settings, parts: u32) -> u64
    ensures { result ≡ ceil_div (parts * settings.window) settings.n }
{
    let n = settings.n as u64;
    if n == 0 {
        return 0;
    }
    product(settings, parts).div_ceil(n)
}

// ⌊parts × window / N⌋ + 1; 1 where N is 0.
pub fn past_share(settings: Settings, parts: u32) -> u64
    ensures { result ≡ past_div (parts * settings.window) settings.n }
{
    let n = settings.n as u64;
    if n == 0 {
        return 1;
    }
    product(settings, parts) / n + 1
}

fn window_factor(rule: u8, estimator: u8) -> u32
    ensures value { result ≡ cond (eqb rule cca && eqb estimator median) 1 2 }
    ensures bound { result ≤ 2 }
{
    if (rule == CCA) & (estimator == MEDIAN) {
        1
    } else {
        2
    }
}

// The next round's window; where N is 0 it is 0 or 1.
pub fn next_window(settings: Settings) -> u64
    ensures { result ≡ next_window settings }
{
    if (settings.m == 0) | (settings.window == 0) {
        return 0;
    }
    let factor = window_factor(settings.rule, settings.estimator);
    past_share(settings, factor * (settings.m as u32))
}

// What a round adds to the accuracy.
pub fn growth(settings: Settings) -> u64
    ensures { result ≡ growth settings }
{
    share(settings, settings.m as u32)
}
