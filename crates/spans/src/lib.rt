// Whether a value lies in a span, all values from a start to a width above it. A mark of 1 is a present reading, any
// other is none; the values are ticks moved up by 2^31.
#![tactic(auto)]

ghost use Rattle.std.specs.Prelude.{◌≡◌, ◌==◌};
ghost use Rattle.spans.specs.Spans.{in_span};

use held::PRESENT;

// Whether a value lies in the span from a start, for one value and many starts.
pub fn spanned(start: u32, span: u32, value: u32) -> bool
    ensures { result ≡ in_span start span value }
{
    value.wrapping_sub(start) <= span.min(value)
}

// The same, for one start and many values.
pub fn reached(start: u32, span: u32, value: u32) -> bool
    ensures { result ≡ in_span start span value }
{
    value.wrapping_sub(start) <= span.min(u32::MAX - start)
}

pub fn present(mark: u8) -> bool
    ensures { result ≡ (mark == 1) }
{
    mark == PRESENT
}
