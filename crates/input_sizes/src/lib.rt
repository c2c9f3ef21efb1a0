// Document 01, "Program `settle`": how much of its input the program reads.
#![tactic(auto)]

ghost use Rattle.std.specs.Prelude.{◌≡◌, min};
ghost use Rattle.model.specs.Listing.{max_input};

// "reads one round sheet from standard input, at most 20,489 bytes"
pub const MAX_INPUT: usize = 20_489;

// How many bytes of the input are read.
pub fn read_size(size: usize) -> usize
    ensures { result ≡ min size max_input }
{
    size.min(MAX_INPUT)
}
