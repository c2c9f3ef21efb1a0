// Document 01, "The answer sheet": where its fields stand, read from any bytes. Bytes past the end are 0.
#![tactic(auto)]

ghost use Rattle.std.specs.Prelude.{◌≡◌, ◌+◌, ◌*◌};
ghost use Rattle.model.specs.RoundSheet.{byte, word};
ghost use Rattle.model.specs.AnswerSheet.{answer_header_size};

use model::ANSWER_HEADER_SIZE;

// N.
pub fn cabinets(answer: &[u8]) -> u32
    ensures { result ≡ byte answer.now 0 }
{
    words::byte_at(answer, 0) as u32
}

// How many readings were accepted.
pub fn count(answer: &[u8]) -> u32
    ensures { result ≡ byte answer.now 1 }
{
    words::byte_at(answer, 1) as u32
}

// The estimate.
pub fn estimate(answer: &[u8]) -> u32
    ensures { result ≡ word answer.now 2 }
{
    words::word_at(answer, 2)
}

// The new value.
pub fn value(answer: &[u8]) -> u32
    ensures { result ≡ word answer.now 6 }
{
    words::word_at(answer, 6)
}

// A cabinet's mark.
pub fn mark(answer: &[u8], cabinet: u32) -> u32
    ensures { result ≡ byte answer.now (answer_header_size + cabinet) }
{
    let at = ANSWER_HEADER_SIZE + (cabinet as usize);
    words::byte_at(answer, at) as u32
}

// A cabinet's used value.
pub fn used(answer: &[u8], cabinet: u32) -> u32
    ensures { result
        ≡ word answer.now (answer_header_size + byte answer.now 0 + 4 * cabinet) }
{
    let n = words::byte_at(answer, 0) as usize;
    let at = ANSWER_HEADER_SIZE + n + 4 * (cabinet as usize);
    words::word_at(answer, at)
}
