// The calls for C and for Rust. An answer below 2^32 is a grant, any other is number × 2^32 + place of a refusal.
#![tactic(auto)]

ghost use Rattle.std.specs.Prelude.{◌≡◌};
ghost use Rattle.model.specs.Calls.{settle_spread, settle, read, write, plan, step};
ghost use Rattle.planner.specs.Answers.{plan_of};
ghost use Rattle.packed_refusals.specs.Answers.{packed, TargetPacked};
ghost use Rattle.packed_records.specs.Answers.{opening_of, planning_of};
ghost use Rattle.packed_rows.specs.Answers.{packed_row};

use model::Settings;
use packed_records::{Opening, Planning};
use planner::Plan;

mod answers;
mod fallbacks;
mod intervals;
mod replays;

// Settles a round sheet with a spread. The answer is the answer sheet's length.
#[unsafe(no_mangle)]
pub extern "C" fn tohiranga_settle_spread(sheet: &[u8], spread: u32, answer: &mut [u8]) -> u64
    ensures value { result ≡ packed (settle_spread sheet.now spread answer.old).verdict }
    ensures answer_after { answer.new ≡ (settle_spread sheet.now spread answer.old).buffer }
{
    packing::pack_length(settling::settle_spread(&*sheet, spread, answer))
}

// The same without a spread.
#[unsafe(no_mangle)]
pub extern "C" fn tohiranga_settle(sheet: &[u8], answer: &mut [u8]) -> u64
    ensures value { result ≡ packed (settle sheet.now answer.old).verdict }
    ensures answer_after { answer.new ≡ (settle sheet.now answer.old).buffer }
{
    tohiranga_settle_spread(sheet, 0, answer)
}

// Reads a round sheet into marks and readings. The answer is the number of entries.
#[unsafe(no_mangle)]
pub extern "C" fn tohiranga_read(sheet: &[u8], marks: &mut [u8], readings: &mut [i32]) -> Opening
    ensures value { result ≡ opening_of (read sheet.now marks.old readings.old).verdict }
    ensures marks_after { marks.new ≡ (read sheet.now marks.old readings.old).marks }
    ensures readings_after { readings.new ≡ (read sheet.now marks.old readings.old).readings }
{
    packed_records::pack_opened(sheet_reader::read(sheet, marks, readings))
}

// Writes a round sheet. The answer is the sheet's length.
#[unsafe(no_mangle)]
pub extern "C" fn tohiranga_write(
    settings: Settings,
    marks: &[u8],
    readings: &[i32],
    sheet: &mut [u8],
) -> u64
    ensures value { result ≡ packed (write settings marks.now readings.now sheet.old).verdict }
    ensures sheet_after { sheet.new
        ≡ (write settings marks.now readings.now sheet.old).buffer }
{
    packing::pack_length(sheet_writer::write(settings, marks, readings, sheet))
}

// The plan some rounds on from a fresh plan. The answer is the rounds done.
#[unsafe(no_mangle)]
pub extern "C" fn tohiranga_plan(settings: Settings, accuracy: u32, rounds: u32) -> Planning
    ensures { result ≡ planning_of (plan settings accuracy rounds) }
{
    packed_records::pack_planned(planner::plan_for(settings, accuracy, rounds))
}

// The plan one round on. The answer is the rounds done.
#[unsafe(no_mangle)]
pub extern "C" fn tohiranga_step(plan: Plan) -> Planning
    ensures { result ≡ planning_of (step (plan_of plan)) }
{
    packed_records::pack_planned(plan.step())
}

// A count of at most 32 rounds whose window is at or below the target. Which of those that fit is not promised.
#[unsafe(no_mangle)]
pub extern "C" fn tohiranga_target(settings: Settings, accuracy: u32, target: u32) -> u64
    ensures { TargetPacked settings accuracy target result }
{
    packing::pack_number(planner::rounds_for(settings, accuracy, target))
}

// Where a cabinet's row of readings stands in the sheet: start × 2^32 + length of the part, 0 for an empty part.
#[unsafe(no_mangle)]
pub extern "C" fn tohiranga_row(sheet: &[u8], cabinet: u32) -> u64
    ensures { result ≡ packed_row sheet.now cabinet }
{
    packed_rows::pack_row(sheet, cabinet)
}
