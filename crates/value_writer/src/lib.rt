// The values that a replay writes: what sound cabinets hold, and 0 for faulty ones.
#![tactic(auto)]

ghost use Rattle.std.specs.Prelude.{◌≡◌, cond, eqb, pos};
ghost use Rattle.std.specs.Int.{w32};
ghost use Rattle.std.proofs.Common.{of_z};
ghost use Rattle.arithmetic.specs.Naturals.{down};
ghost use Rattle.arithmetic.specs.Words.{two_to31};
ghost use Rattle.value_writer.specs.Values.{unfit, size_put, values_put};

use model::SOUND;

// The bits of the value that is shown of a cabinet; 0 for a faulty one.
fn shown(role: u8, value: u32) -> u32
    ensures { result ≡ of_z w32 (cond (eqb role 1) (down two_to31 value) (pos 0)) }
{
    if role == SOUND {
        held::unbias(value)
    } else {
        0
    }
}

// Whether fewer values are held than there are cabinets, or they do not fit into the buffer.
fn is_unfit(cabinets: usize, held: usize, room: usize) -> bool
    ensures { result ≡ unfit cabinets held room }
{
    (held < cabinets) | (room / 4 < cabinets)
}

// Writes the values of the cabinets, four bytes each, where they are held and fit: how many bytes.
#[tactic(auto, unfolding(crate::specs::Values::size_put, crate::specs::Values::values_put))]
pub fn put_values(roles: &[u8], held: &[u32], values: &mut [u8]) -> usize
    ensures value { result ≡ size_put roles.now held.now values.old }
    ensures values_after { values.new ≡ values_put roles.now held.now values.old }
{
    if is_unfit(roles.len(), held.len(), values.len()) {
        return 0;
    }
    'cabinets: for (p, role) in roles.iter().enumerate() {
        word_writer::put_word(values, 4 * p, shown(*role, held[p]));
    }
    4 * roles.len()
}
