// Numbers of four bytes stored in a slice, least significant byte first. A number that does not fit is not stored.
#![tactic(auto)]

ghost use Rattle.std.specs.Prelude.{◌≡◌};
ghost use Rattle.sheet_laws.specs.Storing.{put_word};

// Stores the four bytes of x from byte i on, where they all lie in the buffer.
#[tactic(auto, unfolding(sheet_laws::specs::Storing::put_word, model::specs::RoundSheet::bytes4))]
pub fn put_word(buffer: &mut [u8], i: usize, x: u32)
    ensures { buffer.new ≡ put_word buffer.old i x }
{
    if buffer.len() < 4 || buffer.len() - 4 < i {
        return;
    }
    buffer[i..i + 4].copy_from_slice(&x.to_le_bytes());
}
