// How many come before each of at most 64 numbers, ordered by value and then by place. Of each number those below it
// are counted, in one pass without a branch. Two numbers have equally many below them only where they are equal, so
// what was seen before says which of equal ones it is.
#![tactic(auto)]

ghost use Rattle.std.specs.Prelude.{◌≡◌, ◌≤◌, length};
ghost use Rattle.arithmetic.specs.Writing.{table, overwrite};
ghost use Rattle.model.specs.Ensemble.{max_cabinets};
ghost use Rattle.ranks.specs.Ranks.{below_of, rank_at, ranks_of, Seen};

use model::MOST;

// How many of at most 64 numbers are below a number; none where there are more.
#[tactic(auto, unfolding(crate::specs::Ranks::below_of))]
pub fn count_below(values: &[u32], value: u32) -> Option<u32>
    ensures { result ≡ below_of values.now value }
{
    if MOST < values.len() {
        return None;
    }
    let mut below: u32 = 0;
    'values: for v in values {
        below += (*v < value) as u32;
    }
    Some(below)
}

// The rank of each number. `seen[b]` is how many of the numbers passed have b below them.
fn rank_each(values: &[u32], seen: &mut [u8], ranks: &mut [u8])
    requires values_len_bound { (length values.now ≤ max_cabinets) × (length values.now ≤ length ranks.old) }
    requires seen { Seen values.now 0 seen.old }
    ensures { ranks.new
        ≡ overwrite (table (rank_at values.now) (length values.now)) ranks.old }
{
    'numbers: for (r, value) in values.iter().enumerate() {
        let below = count_below(values, *value).unwrap() as usize;
        let same = seen[below];
        ranks[r] = (below as u8) + same;
        seen[below] = same + 1;
    }
}

fn misfit(n: usize, room: usize) -> bool
    ensures { result ≡ Rattle.ranks.specs.Ranks.misfit n room }
{
    (MOST < n) | (room < n)
}

// The rank of each of at most 64 numbers, in a lent list. Where there are more, or the list is shorter, it changes
// nothing.
pub fn rank(values: &[u32], ranks: &mut [u8])
    ensures { ranks.new ≡ ranks_of values.now ranks.old }
{
    if misfit(values.len(), ranks.len()) {
        return;
    }
    // Stays: a fixed array, lent as far as it is used, since the project has no heap (a).
    let mut seen = [0u8; 64];
    rank_each(values, &mut seen, ranks);
}
