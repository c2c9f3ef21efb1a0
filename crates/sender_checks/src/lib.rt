// Document 02, "Paper 1. Replay of a station run": whether a sound sender's entry is present, of a list of roles, and
// of marks in rows of as many marks as there are roles, one row for each sender in turn.
#![tactic(auto)]

ghost use Rattle.std.specs.Prelude.{◌≡◌, ◌&&◌, eqb};
ghost use Rattle.sender_checks.specs.Senders.{present_in, sent_in};

use model::SOUND;

// Whether a sender with this role is sound and a mark of its row is 1.
fn row_sent(role: u8, row: &[u8]) -> bool
    ensures { result ≡ (eqb role 1 && present_in row.now) }
{
    role == SOUND && row.contains(&1)
}

// Whether a sound sender's mark is 1, row by row.
pub fn sound_sent(roles: &[u8], marks: &[u8]) -> bool
    ensures { result ≡ sent_in roles.now marks.now }
{
    let n = roles.len();
    if n == 0 {
        return false;
    }
    let mut found = false;
    'rows: for (k, row) in marks.chunks(n).enumerate() {
        found |= row_sent(roles[k % n], row);
    }
    found
}
