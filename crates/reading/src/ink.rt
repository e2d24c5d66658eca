// What a text is written with, byte by byte, and what is written with it: digits, numbers, bytes in quotes.
ghost use Rattle.std.specs.Prelude.{◌≡◌, ℕ, ◌/◌, ◌%◌, ◌^◌, ◌<◌, true, is_ok, [], ◌∷◌};
ghost use Rattle.std.specs.List.{flat_map};
ghost use Rattle.columns.specs.Text.{hex_digit, hex_byte, hex_number};
ghost use Rattle.columns.specs.Bytes.{le_bytes};
ghost use Rattle.reading.specs.Inked.{Inks, Wrote};
ghost use Rattle.reading.specs.Raw.{quoted};

// No more goes in.
#[derive(Clone, Copy, PartialEq, Eq, Debug)]
pub struct Full;

// The digit of a number below sixteen, in lower case.
fn digit(n: u8) -> u8
    requires { n < 16 }
    ensures { result ≡ hex_digit n }
{
    b"0123456789abcdef"[usize::from(n)]
}

// Byte k of a number, the lowest being byte 0. Past the eight that it has they are 0, so a number is written by place and not by a
// slice of its bytes: any width may be asked.
fn byte_of(value: u64, k: u8) -> u8
    ensures { result ≡ value / 256 ^ k % 256 }
{
    value
        .to_le_bytes()
        .get(usize::from(k))
        .copied()
        .unwrap_or(0)
}

// Takes bytes in turn while there is room for them. The first that has no room is refused, and what was written before it
// stays.
pub trait Ink {
    // how many bytes more go in
    ghost room: { Self → ℕ };

    // what one byte more leaves
    ghost marked: { Self → ℕ → Self };

    fn put(&mut self, byte: u8) -> Result<(), Full>
        ensures { Inks room marked self.old byte self.new result };

    // The two digits of a byte, the higher one first.
    fn byte(&mut self, byte: u8) -> Result<(), Full>
        ensures { Wrote room marked self.old (hex_byte byte) self.new result }
    {
        self.put(digit(byte / 16))?;
        self.put(digit(byte % 16))
    }

    // So many of a number's bytes, highest first.
    fn number(&mut self, width: u8, value: u64) -> Result<(), Full>
        ensures { Wrote room marked self.old (hex_number width value) self.new result }
    {
        for k in (0..width).rev() {
            self.byte(byte_of(value, k))?;
        }
        Ok(())
    }

    // So many of a number's bytes, lowest first.
    fn low_bytes(&mut self, count: u8, value: u64) -> Result<(), Full>
        ensures { Wrote room marked self.old (flat_map hex_byte (le_bytes count value)) self.new result }
    {
        for k in 0..count {
            self.byte(byte_of(value, k))?;
        }
        Ok(())
    }

    // Bytes in quotes.
    fn quoted(&mut self, bytes: &[u8]) -> Result<(), Full>
        ensures { Wrote room marked self.old (quoted bytes.now) self.new result }
    {
        self.put(b'"')?;
        for byte in bytes {
            self.byte(*byte)?;
        }
        self.put(b'"')
    }
}
