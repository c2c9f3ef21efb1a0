// "A missing reading is four zero bytes": the tests of one entry.
#![tactic(auto)]

ghost use Rattle.std.specs.Prelude.{◌≡◌, not, eqb};

// Whether an entry's mark says that it is missing.
pub fn is_missing(mark: u8) -> bool
    ensures { result ≡ eqb mark 0 }
{
    mark == 0
}

// Whether an entry's bytes are not zero.
pub fn is_filled(bits: u32) -> bool
    ensures { result ≡ not (eqb bits 0) }
{
    bits != 0
}
