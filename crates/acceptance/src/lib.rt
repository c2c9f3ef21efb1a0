// Who is accepted. A mark of 1 is a present reading, any other is none; the values are ticks moved up by 2^31.
#![tactic(auto)]

ghost use Rattle.std.specs.Prelude.{◌≡◌, true, not, ◌&&◌, ◌||◌, ◌+◌, ◌≤◌, ◌<◌, ltb, eqb, length, is_some, IfSome};
ghost use Rattle.arithmetic.specs.Counting.{bit, count};
ghost use Rattle.arithmetic.specs.Writing.{table, overwrite};
ghost use Rattle.model.specs.Ensemble.{max_cabinets};
ghost use Rattle.held.specs.Held.{present_in, value_at};
ghost use Rattle.spans.specs.Spans.{in_span, held_at};
ghost use Rattle.starts.specs.Starts.{is_short};
ghost use Rattle.acceptance.specs.Values.{accepted_in, accepted_count, count_given, flags_of};
ghost use Rattle.acceptance.specs.Values.{admitted, passed_at, Counting, Remembered, Holds, Begins};

use held::PRESENT;
use model::MOST;
use starts::Known;

// From this number of readings on a span is counted in one pass, without a branch.
const WIDE: usize = 8;

// Whether a span is to be tried for a value: it starts at a present reading, holds the value, and was not found short.
fn tries(known: Known, from: u8, start: u32, span: u32, value: u32) -> bool
    ensures { result ≡ (not (is_short known) && (eqb from 1 && in_span start span value)) }
{
    (known != Known::Short) & ((from == PRESENT) & spans::spanned(start, span, value))
}

// The readings of at most 64 cabinets, how wide a span is, and how many readings it must hold.
#[derive(Clone, Copy)]
struct Readings<'a> {
    marks: &'a [u8],
    values: &'a [u32],
    span: u32,
    need: u32,
    ghost even: { length values.now ≡ length marks.now },
    ghost few: { length marks.now ≤ max_cabinets },
}

// A count with one reading more, if the span from a start holds it.
fn one_more(found: u32, all: &Readings, start: u32, t: usize) -> u32
    requires { (t < length all.now.marks.now) × (found ≤ max_cabinets) }
    ensures { result ≡ found + bit (held_at start all.now.span all.now.marks.now all.now.values.now t) }
{
    if spans::present(all.marks[t]) {
        found + spans::reached(start, all.span, all.values[t]) as u32
    } else {
        found
    }
}

// How many readings the span from a start holds up to the next one, by how many it holds up to t; where there are many
// readings, how many of all.
fn counted(found: u32, all: &Readings, start: u32, t: usize) -> u32
    requires { Counting all.now.span all.now.marks.now all.now.values.now start found t × (t < length all.now.marks.now) }
    ensures { result
        ≡ count (held_at start all.now.span all.now.marks.now all.now.values.now)
        (passed_at (length all.now.marks.now) t) }
{
    if WIDE <= all.marks.len() {
        found + span_counts::held_of_all(all.marks, all.values, start, all.span)
    } else {
        one_more(found, all, start, t)
    }
}

// How many of n readings are then counted.
fn passed(t: usize, n: usize) -> usize
    requires { t < n }
    ensures { result ≡ passed_at n t }
{
    if WIDE <= n { n } else { t + 1 }
}

// The first start whose span holds a value, and enough readings. The loops over starts and readings are left by a label
// at the first span that does. `known` remembers what was found of each start, so that none is counted twice.
// Stays: the inner `while` (d): t goes on by one reading or by all, as `passed` says, which no range does.
fn accepts(all: &Readings, known: &mut [Known], value: u32) -> Option<usize>
    requires room { length known.old ≡ max_cabinets }
    requires remembered { Remembered all.now.span all.now.need all.now.marks.now all.now.values.now known.old }
    ensures admitted { is_some result ≡ admitted all.now.span all.now.need all.now.marks.now all.now.values.now value }
    ensures holds { IfSome result (Holds all.now.span all.now.need all.now.marks.now all.now.values.now) }
    ensures remembered_after { Remembered all.now.span all.now.need all.now.marks.now all.now.values.now known.new }
{
    let mut found = None;
    'starts: for s in 0..all.marks.len() {
        let start = all.values[s];
        let so_far = known[s];
        if tries(so_far, all.marks[s], start, all.span, value) {
            if so_far == Known::Enough {
                found = Some(s);
                break 'starts;
            }
            let mut count: u32 = 0;
            let mut t = 0;
            'readings: while t < all.marks.len() {
                count = counted(count, all, start, t);
                t = passed(t, all.marks.len());
                if all.need <= count {
                    found = Some(s);
                    break 'starts;
                }
            }
            known[s] = starts::judged(all.need, count);
        }
    }
    found
}

// Whether the accepted readings and those left are fewer than needed.
fn too_few(before: u32, left: usize, need: u32) -> bool
    requires { (before ≤ max_cabinets) × (left ≤ max_cabinets) }
    ensures { result ≡ ltb (before + left) need }
{
    before + (left as u32) < need
}

// The number of a start whose span accepts a present reading: the one that accepted an earlier reading, or else the first
// of all. Such a span holds accepted readings alone: where those before a reading and those left are too few, no start is
// tried. A start that accepts is remembered.
fn find_start(
    all: &Readings,
    known: &mut [Known],
    before: u32,
    earlier: Option<u32>,
    r: usize,
) -> Option<u32>
    requires room { (length known.old ≡ max_cabinets) × (r < length all.now.marks.now) }
    requires present { present_in all.now.marks.now r ≡ true }
    requires before { before ≡ count (accepted_in all.now.span all.now.need all.now.marks.now all.now.values.now) r }
    requires remembered { Remembered all.now.span all.now.need all.now.marks.now all.now.values.now known.old }
    requires begins { IfSome earlier (Begins all.now.span all.now.need all.now.marks.now all.now.values.now) }
    ensures accepted { is_some result ≡ accepted_in all.now.span all.now.need all.now.marks.now all.now.values.now r }
    ensures holds { IfSome result (Begins all.now.span all.now.need all.now.marks.now all.now.values.now) }
    ensures remembered_after { Remembered all.now.span all.now.need all.now.marks.now all.now.values.now known.new }
{
    let joined = starts::spanned_from(earlier, all.span, all.values[r]);
    if joined.is_some() {
        return joined;
    }
    if too_few(before, all.marks.len() - r, all.need) {
        return None;
    }
    let s = accepts(all, &mut *known, all.values[r])?;
    known[s] = Known::Enough;
    Some(all.values[s])
}

// Says of each reading whether it is accepted, and counts the accepted ones.
fn accept_each(all: &Readings, known: &mut [Known], accepted: &mut [bool]) -> u32
    requires room { (length known.old ≡ max_cabinets) × (length all.now.marks.now ≤ length accepted.old) }
    requires remembered { Remembered all.now.span all.now.need all.now.marks.now all.now.values.now known.old }
    ensures value { result ≡ accepted_count all.now.span all.now.need all.now.marks.now all.now.values.now }
    ensures accepted_after { accepted.new
        ≡ overwrite
        (table (accepted_in all.now.span all.now.need all.now.marks.now all.now.values.now) (length all.now.marks.now))
        accepted.old }
{
    let mut count: u32 = 0;
    let mut earlier = None;
    'readings: for r in 0..all.marks.len() {
        accepted[r] = false;
        if all.marks[r] == PRESENT {
            let start = find_start(all, &mut *known, count, earlier, r);
            count += starts::passes(start);
            if start.is_some() {
                accepted[r] = true;
                earlier = start;
            }
        }
    }
    count
}

fn misfit(n: usize, values: usize, room: usize) -> bool
    ensures { result ≡ (ltb max_cabinets n || (not (eqb values n) || ltb room n)) }
{
    (MOST < n) | ((values != n) | (room < n))
}

// Says of each of at most 64 readings whether it is accepted, in a lent list, and counts the accepted ones. Where
// there are more, the marks and the values are not as many, or the list is shorter, it changes nothing and counts 0.
pub fn accept(marks: &[u8], values: &[u32], span: u32, need: u32, accepted: &mut [bool]) -> u32
    ensures value { result ≡ count_given span need marks.now values.now accepted.old }
    ensures accepted_after { accepted.new
        ≡ flags_of span need marks.now values.now accepted.old }
{
    if misfit(marks.len(), values.len(), accepted.len()) {
        return 0;
    }
    let all = Readings {
        marks,
        values,
        span,
        need,
    };
    // Stays: a fixed array, lent as far as it is used, since the project has no heap (a).
    let mut known = [Known::Uncounted; 64];
    accept_each(&all, &mut known, accepted)
}
