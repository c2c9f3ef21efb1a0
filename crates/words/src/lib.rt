// Bytes and numbers of four bytes read from a slice, least significant byte first. Every function is total: past the
// end a byte reads 0.
#![tactic(auto)]

ghost use Rattle.std.specs.Prelude.{◌≡◌, ◌+◌, ◌*◌, ◌/◌, ◌≤◌, ◌<◌, length, MatchOption};
ghost use Rattle.model.specs.RoundSheet.{byte, word};

// The byte at i.
pub fn byte_at(s: &[u8], i: usize) -> u8
    ensures { result ≡ byte s.now i }
{
    if i < s.len() { s[i] } else { 0 }
}

// The number that four bytes make, the first the least significant.
pub fn join(a: u8, b: u8, c: u8, d: u8) -> u32
    ensures { result ≡ a + 256 * b + 65536 * c + 16777216 * d }
{
    u32::from_le_bytes([a, b, c, d])
}

// The number of four bytes from byte i on.
#[tactic(auto, unfolding(model::specs::RoundSheet::word))]
pub fn word_at(s: &[u8], i: usize) -> u32
    ensures { result ≡ word s.now i }
{
    if s.len() <= i {
        return 0;
    }
    join(
        byte_at(s, i),
        byte_at(s, i + 1),
        byte_at(s, i + 2),
        byte_at(s, i + 3),
    )
}

// Entries as they are sent: a mark for each, and four bytes of each.
#[derive(Clone, Copy)]
pub struct Entries<'a> {
    pub marks: &'a [u8],
    pub bytes: &'a [u8],
    pub ghost sized: { 4 * length marks.now ≤ length bytes.now },
}

impl<'a> Entries<'a> {
    // The entries of these marks and bytes, where there are enough bytes.
    pub fn of(marks: &'a [u8], bytes: &'a [u8]) -> Option<Self>
        ensures { MatchOption result
            (length bytes.now / 4 < length marks.now)
            (λ e. (e.marks.now ≡ marks.now) × (e.bytes.now ≡ bytes.now)) }
    {
        if marks.len() <= bytes.len() / 4 {
            Some(Entries { marks, bytes })
        } else {
            None
        }
    }

    // The number that the four bytes of entry e make; 0 past the last.
    #[tactic(auto, unfolding(model::specs::RoundSheet::word))]
    pub fn bits(&self, e: usize) -> u32
        ensures here { e < length self.now.marks.now → result ≡ word self.now.bytes.now (4 * e) }
        ensures past { length self.now.marks.now ≤ e → result ≡ 0 }
    {
        if e < self.marks.len() {
            let i = 4 * e;
            join(
                self.bytes[i],
                self.bytes[i + 1],
                self.bytes[i + 2],
                self.bytes[i + 3],
            )
        } else {
            0
        }
    }
}
