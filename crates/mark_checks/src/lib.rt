// Check 8 of a list of marks: the lowest that is not 0 or 1.
#![tactic(auto)]

ghost use Rattle.std.specs.Prelude.{◌≡◌, cond, ◌≤◌, ltb, length};
ghost use Rattle.std.proofs.Math.Option.{none};
ghost use Rattle.std.specs.Int.Bits.{bit_or, bit_xor};
ghost use Rattle.model.specs.RoundSheet.{byte};
ghost use Rattle.model.specs.Refusals.{bad_mark};
ghost use Rattle.refusals.specs.Answers.{check_of};
ghost use Rattle.sheet_sizes.specs.Bounds.{most_entries};
ghost use Rattle.mark_checks.specs.Marks.{surveyed, marks_in};

use refusals::{Reason, Refusal};
use sheet_sizes::MAX_ENTRIES;

fn with_mark(seen: u8, mark: u8) -> u8
    ensures { result ≡ bit_or seen (bit_xor mark 1) }
{
    seen | (mark ^ 1)
}

// All marks by one pass without a branch: 0 where each is 1, at most 1 where each is 0 or 1.
pub fn survey(marks: &[u8]) -> u8
    ensures { result ≡ surveyed marks.now (length marks.now) }
{
    let mut seen: u8 = 0;
    'entries: for mark in marks {
        seen = with_mark(seen, *mark);
    }
    seen
}

// Check 8, mark by mark.
fn search_each(marks: &[u8]) -> Result<(), Refusal>
    requires { length marks.now ≤ most_entries }
    ensures { check_of result ≡ bad_mark (byte marks.now) (length marks.now) }
{
    'entries: for (e, mark) in marks.iter().enumerate() {
        if 1 < *mark {
            return Err(Reason::BadMark.at(e as u32));
        }
    }
    Ok(())
}

// Check 8, made where what was seen of the marks is above 1. More marks than a sheet can have pass unseen.
pub fn search(marks: &[u8], seen: u8) -> Result<(), Refusal>
    ensures { check_of result ≡ cond (ltb 1 seen) (marks_in marks.now) none }
{
    if seen <= 1 {
        return Ok(());
    }
    if MAX_ENTRIES < marks.len() {
        return Ok(());
    }
    search_each(marks)
}

// Check 8.
pub fn check(marks: &[u8]) -> Result<(), Refusal>
    ensures { check_of result ≡ marks_in marks.now }
{
    search(marks, survey(marks))
}
