// How many readings a span holds. A mark of 1 is a present reading, any other is none; the values are ticks moved up by
// 2^31.
#![tactic(auto)]

ghost use Rattle.std.specs.Prelude.{◌≡◌, length};
ghost use Rattle.arithmetic.specs.Counting.{count};
ghost use Rattle.spans.specs.Spans.{held_at};
ghost use Rattle.span_counts.specs.Places.{places};

use model::MOST;

// How many of at most 64 readings the span from a start holds.
pub fn held_of_all(marks: &[u8], values: &[u32], start: u32, span: u32) -> u32
    ensures { result
        ≡ count (held_at start span marks.now values.now)
        (places (length marks.now) (length values.now)) }
{
    let n = marks.len().min(values.len()).min(MOST);
    let mut total: u32 = 0;
    'readings: for t in 0..n {
        let value = values[t];
        total += (spans::present(marks[t]) & spans::reached(start, span, value)) as u32;
    }
    total
}
