// Document 01, "Program `settle`": numbers in decimal and a line's fields, put into a lent buffer.
#![tactic(auto)]

ghost use Rattle.std.specs.Prelude.{◌≡◌, [], ◌∷◌};
ghost use Rattle.std.specs.Int.{w32};
ghost use Rattle.std.proofs.Common.{to_z};
ghost use Rattle.model.specs.Listing.{decimal, signed_decimal};
ghost use Rattle.fields.specs.Writing.{Writes};

// A lent buffer, and the position after the last byte that was put. Bytes that the buffer has no room for are left out.
#[derive(Drop)]
pub struct Writer<'a> {
    bytes: &'a mut [u8],
    pub at: usize,
}

impl<'a> Writer<'a> {
    // Writes from the buffer's start on.
    pub fn new(bytes: &'a mut [u8]) -> Writer<'a>
        ensures same_reference { result.bytes.ghost_name ≡ bytes.entry.ghost_name }
        ensures bytes { result.bytes.now ≡ bytes.old }
        ensures at { result.at ≡ 0 }
    {
        Writer { bytes, at: 0 }
    }

    // Puts one byte.
    pub fn put_byte(&mut self, byte: u8)
        ensures { Writes self.old (byte ∷ []) self.new }
    {
        if self.at < self.bytes.len() {
            self.bytes[self.at] = byte;
            self.at += 1;
        }
    }

    // Puts each byte of a word.
    pub fn put_bytes(&mut self, bytes: &[u8])
        ensures { Writes self.old bytes.now self.new }
    {
        'bytes: for byte in bytes {
            self.put_byte(*byte);
        }
    }

    // Puts a number in decimal, without leading zeros: its tenth part, then its last digit. At most ten calls stand open.
    pub fn put_decimal(&mut self, x: u32)
        ensures { Writes self.old (decimal x) self.new }
    {
        if x >= 10 {
            self.put_decimal(x / 10);
        }
        self.put_byte((48 + x % 10) as u8);
    }

    // Puts the number that 32 bits in two's complement are, a minus sign before a negative one.
    fn put_signed(&mut self, bits: u32)
        ensures { Writes self.old (signed_decimal (to_z w32 bits)) self.new }
    {
        let value = bits.cast_signed();
        if value < 0 {
            self.put_byte(b'-');
        }
        self.put_decimal(value.unsigned_abs());
    }

    // Puts a line's next field: a space, then a number.
    pub fn put_field(&mut self, x: u32)
        ensures { Writes self.old (32 ∷ decimal x) self.new }
    {
        self.put_byte(b' ');
        self.put_decimal(x);
    }

    // Puts a line's next field: a space, then a signed number.
    pub fn put_signed_field(&mut self, bits: u32)
        ensures { Writes self.old (32 ∷ signed_decimal (to_z w32 bits)) self.new }
    {
        self.put_byte(b' ');
        self.put_signed(bits);
    }
}
