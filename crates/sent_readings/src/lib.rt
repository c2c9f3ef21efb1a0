// The readings of a sheet as sent, held as marks and as values of 32 bits beside them.
#![tactic(auto)]

ghost use Rattle.std.specs.Prelude.{◌≡◌, ◌/◌, ◌≤◌, length};
ghost use Rattle.held_laws.specs.Stored.{Stored};
ghost use Rattle.decisions.specs.Rows.{copy_at};
ghost use Rattle.sent_readings.specs.Sizes.{readings_taken};

use words::Entries;

// How many readings are taken: all that have a mark, or none where their bytes or the lent lists are too short.
#[tactic(auto, unfolding(crate::specs::Sizes::readings_taken))]
fn takes(sent: usize, row: usize, marks: usize, values: usize) -> usize
    ensures taken { result ≡ readings_taken sent row marks values }
    ensures room { (result ≤ sent) × (result ≤ row / 4) × (result ≤ marks) × (result ≤ values) }
{
    if (sent <= row / 4) & ((sent <= marks) & (sent <= values)) {
        sent
    } else {
        0
    }
}

// The readings as sent: their marks, and four bytes each.
pub fn receive_sent(sent: &[u8], row: &[u8], marks: &mut [u8], values: &mut [u32])
    ensures { Stored
        (copy_at sent.now row.now)
        (readings_taken
        (length sent.now)
        (length row.now)
        (length marks.old)
        (length values.old))
        marks.old values.old marks.new values.new }
{
    let n = takes(sent.len(), row.len(), marks.len(), values.len());
    let entries = Entries {
        marks: &sent[..n],
        bytes: row,
    };
    'readings: for t in 0..n {
        let mark = sent[t];
        let bits = entries.bits(t);
        marks[t] = held::entry_mark(mark, bits);
        values[t] = held::entry_value(mark, bits);
    }
}
