// The fields of an answer sheet of any bytes, for C and for Rust, and the version. Signed numbers go out as their 32
// bits.
ghost use Rattle.std.specs.Prelude.{◌≡◌};
ghost use Rattle.answer_reader.specs.Fields.{cabinets_in, count_in, estimate_in, value_in, mark_in, used_in};
ghost use Rattle.version.specs.Version.{version_number};
ghost use Rattle.packed_refusals.specs.Answers.{packed};

// N.
#[unsafe(no_mangle)]
pub extern "C" fn tohiranga_answer_cabinets(answer: &[u8]) -> u64
    ensures { result ≡ packed (cabinets_in answer.now) }
{
    packed_fields::pack_cabinets(answer)
}

// How many readings were accepted.
#[unsafe(no_mangle)]
pub extern "C" fn tohiranga_answer_count(answer: &[u8]) -> u64
    ensures { result ≡ packed (count_in answer.now) }
{
    packed_fields::pack_count(answer)
}

// The estimate.
#[unsafe(no_mangle)]
pub extern "C" fn tohiranga_answer_estimate(answer: &[u8]) -> u64
    ensures { result ≡ packed (estimate_in answer.now) }
{
    packed_fields::pack_estimate(answer)
}

// The new value.
#[unsafe(no_mangle)]
pub extern "C" fn tohiranga_answer_value(answer: &[u8]) -> u64
    ensures { result ≡ packed (value_in answer.now) }
{
    packed_fields::pack_value(answer)
}

// A cabinet's mark.
#[unsafe(no_mangle)]
pub extern "C" fn tohiranga_answer_mark(answer: &[u8], cabinet: u32) -> u64
    ensures { result ≡ packed (mark_in answer.now cabinet) }
{
    packed_fields::pack_mark(answer, cabinet)
}

// A cabinet's used value.
#[unsafe(no_mangle)]
pub extern "C" fn tohiranga_answer_used(answer: &[u8], cabinet: u32) -> u64
    ensures { result ≡ packed (used_in answer.now cabinet) }
{
    packed_fields::pack_used(answer, cabinet)
}

// The version of the library: major × 2^16 + minor × 2^8 + patch.
#[unsafe(no_mangle)]
pub extern "C" fn tohiranga_version() -> u32
    ensures { result ≡ version_number }
{
    version::number()
}
