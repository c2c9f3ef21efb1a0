// What is found of the starts of spans, and of a reading by the start that accepts it.
#![tactic(auto)]

ghost use Rattle.std.specs.Prelude.{◌≡◌, leb, is_some};
ghost use Rattle.arithmetic.specs.Counting.{bit};
ghost use Rattle.starts.specs.Starts.{judged_of, spanned_from};

// What is known of a span: not counted yet, too few readings, enough.
#[derive(Clone, Copy, PartialEq, Eq)]
pub enum Known {
    Uncounted,
    Short,
    Enough,
}

// What is known of a span that holds so many readings.
pub fn judged(need: u32, count: u32) -> Known
    ensures { result ≡ judged_of (leb need count) }
{
    if need <= count {
        Known::Enough
    } else {
        Known::Short
    }
}

// A start, if there is one and its span holds a value.
pub fn spanned_from(start: Option<u32>, span: u32, value: u32) -> Option<u32>
    ensures { result ≡ spanned_from start span value }
{
    match start {
        Some(from) if spans::spanned(from, span, value) => start,
        _ => None,
    }
}

// 1 for a reading that a start accepts, else 0.
pub fn passes(start: Option<u32>) -> u32
    ensures { result ≡ bit (is_some start) }
{
    start.is_some() as u32
}
