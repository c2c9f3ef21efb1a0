// Who is heard to say what it holds in a round of a recorded run, what an entry is heard as, and which of the round's
// entries it is.
#![tactic(auto)]

ghost use Rattle.std.specs.Prelude.{◌≡◌, ◌+◌, ◌*◌, eqb};
ghost use Rattle.held.specs.Held.{entry_reading, held_mark, held_value};

use model::SOUND;

// A reading as it is held.
#[derive(Clone, Copy)]
pub struct Held {
    pub mark: u8,
    pub value: u32,
}

// Whether a sender is sound, and so heard to say the value that it holds.
pub fn is_sound(role: u8) -> bool
    ensures { result ≡ eqb role 1 }
{
    role == SOUND
}

// What a faulty sender is heard to say, which sent the entry of this mark and bits.
pub fn hear_entry(mark: u8, bits: u32) -> Held
    ensures mark { result.mark ≡ held_mark (entry_reading mark bits) }
    ensures value { result.value ≡ held_value (entry_reading mark bits) }
{
    Held {
        mark: held::entry_mark(mark, bits),
        value: held::entry_value(mark, bits),
    }
}

// The number of what r sent p among a round's entries, which are ordered by sender and receiver.
pub fn entry_number(n: u8, r: u8, p: u8) -> usize
    ensures { result ≡ r * n + p }
{
    (r as usize) * (n as usize) + (p as usize)
}
