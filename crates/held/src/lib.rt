// How a reading is held while a round is settled, in 32 bits: its ticks moved up by 2^31, and its mark beside it. A
// mark of 1 is a present reading, any other is none.
#![tactic(auto)]

ghost use Rattle.std.specs.Prelude.{◌≡◌};
ghost use Rattle.std.specs.Int.{w32};
ghost use Rattle.std.proofs.Common.{to_z, of_z};
ghost use Rattle.arithmetic.specs.Naturals.{down, up};
ghost use Rattle.arithmetic.specs.Words.{two_to31};
ghost use Rattle.held.specs.Held.{entry_reading, held_mark, held_value, kept_mark, unfit};

use model::MOST;

// The marks: no reading, a present one, and one that is present and not accepted.
// Stays: marks are numbers (a): they are document 01's bytes of the answer sheet, written as they are.
pub const MISSING: u8 = 0;

pub const PRESENT: u8 = 1;

pub const REJECTED: u8 = 2;

// 2^31, which turns the first of 32 bits over.
const HALF: u32 = 2_147_483_648;

// The number that 32 bits in two's complement are, moved up by 2^31.
pub fn bias(bits: u32) -> u32
    ensures { result ≡ up two_to31 (to_z w32 bits) }
{
    bits.wrapping_add(HALF)
}

// The bits of the number that was moved up.
pub fn unbias(value: u32) -> u32
    ensures { result ≡ of_z w32 (down two_to31 value) }
{
    value.wrapping_add(HALF)
}

// The mark that an entry is held with: present only where its mark is 1.
pub fn entry_mark(mark: u8, bits: u32) -> u8
    ensures { result ≡ held_mark (entry_reading mark bits) }
{
    if mark == PRESENT { PRESENT } else { MISSING }
}

// The number that an entry is held as; 0 where it is missing.
pub fn entry_value(mark: u8, bits: u32) -> u32
    ensures { result ≡ held_value (entry_reading mark bits) }
{
    if mark == PRESENT { bias(bits) } else { 0 }
}

// The mark of a reading on the answer sheet: whether it is missing, accepted, or present and not accepted.
pub fn kept_mark(accepted: bool, mark: u8) -> u8
    ensures { result ≡ kept_mark accepted mark }
{
    if mark == PRESENT {
        if accepted { PRESENT } else { REJECTED }
    } else {
        MISSING
    }
}

// Whether lists of these lengths are not those of the readings of at most 64 cabinets.
pub fn unfit(marks: usize, values: usize) -> bool
    ensures { result ≡ unfit marks values }
{
    (MOST < marks) | (values != marks)
}
