// Document 01, "Program `settle`": the text of an answer sheet and of a refusal, written into a lent buffer.
#![tactic(auto)]

ghost use Rattle.std.specs.Prelude.{◌≡◌};
ghost use Rattle.model.specs.RoundSheet.{byte};
ghost use Rattle.model.specs.Listing.{cabinet_lines};
ghost use Rattle.fields.specs.Writing.{Writes};
ghost use Rattle.text.specs.Text.{answer_round, round_written, refusal_written};

use fields::Writer;
use model::ANSWER_HEADER_SIZE;

// Bytes that hold the longest text of an answer sheet, and of a refusal.
pub const ROUND_CAPACITY: usize = 5138;

pub const REFUSAL_CAPACITY: usize = 23;

// The text of a refusal: `refused`, number, place. A buffer below the capacity is left as it was, and the answer is 0.
pub fn refusal_text(number: u8, place: u32, text: &mut [u8]) -> usize
    ensures value { result ≡ (refusal_written number place text.old).size }
    ensures text_after { text.new ≡ (refusal_written number place text.old).buffer }
{
    if text.len() < REFUSAL_CAPACITY {
        return 0;
    }
    let mut writer = Writer::new(text);
    lines::put_refusal(&mut writer, number, place);
    writer.at
}

// Puts a line for each of the cabinets 0 to n-1, as the answer sheet has them.
fn put_cabinets(text: &mut Writer, answer: &[u8], n: u32)
    requires { n ≡ byte answer.now 0 }
    ensures { Writes text.old (cabinet_lines (answer_round answer.now) n) text.new }
{
    'cabinets: for r in 0..n {
        let i = r as usize;
        let mark = words::byte_at(answer, ANSWER_HEADER_SIZE + i) as u32;
        let used = words::word_at(answer, ANSWER_HEADER_SIZE + (n as usize) + 4 * i);
        lines::put_cabinet(text, r, mark, used);
    }
}

// The text of an answer sheet: the round's line, then a line for each cabinet. A buffer below the capacity is left as
// it was, and the answer is 0.
pub fn round_text(answer: &[u8], text: &mut [u8]) -> usize
    ensures value { result ≡ (round_written answer.now text.old).size }
    ensures text_after { text.new ≡ (round_written answer.now text.old).buffer }
{
    if text.len() < ROUND_CAPACITY {
        return 0;
    }
    let n = words::byte_at(answer, 0) as u32;
    let count = words::byte_at(answer, 1) as u32;
    let estimate = words::word_at(answer, 2);
    let value = words::word_at(answer, 6);
    let mut writer = Writer::new(text);
    lines::put_round(&mut writer, n, count, estimate, value);
    put_cabinets(&mut writer, answer, n);
    writer.at
}
