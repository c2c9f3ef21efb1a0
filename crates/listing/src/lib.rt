// Document 01, "Program `settle`": from the bytes of a round sheet to the text that the program writes.
#![tactic(auto)]

ghost use Rattle.std.specs.Prelude.{◌≡◌, ◌≤◌, length};
ghost use Rattle.model.specs.Listing.{listing_buffer};
ghost use Rattle.text.specs.Text.{round_capacity};
ghost use Rattle.listing.specs.Listed.{listing_in};

use text::ROUND_CAPACITY;

// Settles what is read into an answer buffer of zeros, and writes the text of the answer sheet or of the refusal.
fn listing_in(input: &[u8], answer: &mut [u8], text: &mut [u8]) -> usize
    requires answer_value { answer.old ≡ listing_buffer }
    requires round_capacity_in_bounds { round_capacity ≤ length text.old }
    ensures value { result ≡ (listing_in input.now text.old).size }
    ensures text_after { text.new ≡ (listing_in input.now text.old).buffer }
{
    let end = input_sizes::read_size(input.len());
    match settling::settle(&input[..end], answer) {
        Ok(_) => text::round_text(answer, text),
        Err(refusal) => refused_text::refused_text(refusal, text),
    }
}

// The text that `settle` writes for an input of any bytes. A buffer below the capacity of a round's text is left as it
// was, and the answer is 0.
pub fn listing(input: &[u8], text: &mut [u8]) -> usize
    ensures value { result ≡ (listing_in input.now text.old).size }
    ensures text_after { text.new ≡ (listing_in input.now text.old).buffer }
{
    if text.len() < ROUND_CAPACITY {
        return 0;
    }
    // Stays: a fixed array, lent as far as it is used, since the project has no heap (a).
    let mut answer = [0u8; 330];
    listing_in(input, &mut answer, text)
}
