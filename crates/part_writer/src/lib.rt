// A part stored at the front of a list. One that does not fit is not stored.
#![tactic(auto)]

ghost use Rattle.std.specs.Prelude.{◌≡◌};
ghost use Rattle.part_writer.specs.Parts.{part_put};

// Copies a part to the front of a list that has room for it.
#[tactic(auto, unfolding(crate::specs::Parts::part_put, arithmetic::specs::Writing::overwrite))]
pub fn put_part(part: &[u8], list: &mut [u8])
    ensures { list.new ≡ part_put part.now list.old }
{
    if part.len() <= list.len() {
        list[..part.len()].copy_from_slice(part);
    }
}
