// The fields of an answer sheet of any bytes, for C and for Rust. An answer below 2^32 is a grant, any other is
// number × 2^32 + place of a refusal. Signed numbers go out as their 32 bits.
#![tactic(auto)]

ghost use Rattle.std.specs.Prelude.{◌≡◌};
ghost use Rattle.answer_reader.specs.Fields.{cabinets_in, count_in, estimate_in, value_in, mark_in, used_in};
ghost use Rattle.packed_refusals.specs.Answers.{packed};

// N.
pub fn pack_cabinets(answer: &[u8]) -> u64
    ensures { result ≡ packed (cabinets_in answer.now) }
{
    packing::pack_number(answer_reader::cabinets(answer))
}

// How many readings were accepted.
pub fn pack_count(answer: &[u8]) -> u64
    ensures { result ≡ packed (count_in answer.now) }
{
    packing::pack_number(answer_reader::count(answer))
}

// The estimate.
pub fn pack_estimate(answer: &[u8]) -> u64
    ensures { result ≡ packed (estimate_in answer.now) }
{
    packing::pack_number(answer_reader::estimate(answer))
}

// The new value.
pub fn pack_value(answer: &[u8]) -> u64
    ensures { result ≡ packed (value_in answer.now) }
{
    packing::pack_number(answer_reader::value(answer))
}

// A cabinet's mark.
pub fn pack_mark(answer: &[u8], cabinet: u32) -> u64
    ensures { result ≡ packed (mark_in answer.now cabinet) }
{
    packing::pack_number(answer_reader::mark(answer, cabinet))
}

// A cabinet's used value.
pub fn pack_used(answer: &[u8], cabinet: u32) -> u64
    ensures { result ≡ packed (used_in answer.now cabinet) }
{
    packing::pack_number(answer_reader::used(answer, cabinet))
}
