// What writes a text to the front of a buffer, and what only measures it.
ghost use Rattle.reading.specs.Inked.{left, marked, lower};

use crate::ink::{Full, Ink};

// A pen writes on in a buffer, from a place on. The buffer is lent, since the shelf has no heap.
#[derive(Drop)]
pub struct Pen<'a> {
    pub text: &'a mut [u8],
    pub place: usize,
}

impl Ink for Pen<'_> {
    ghost room = { left };

    ghost marked = { marked };

    fn put(&mut self, byte: u8) -> Result<(), Full> {
        if self.place >= self.text.len() {
            return Err(Full);
        }
        self.text[self.place] = byte;
        self.place += 1;
        Ok(())
    }
}

// A gauge measures: it counts the bytes that a buffer would have room for, and writes none.
#[derive(Clone, Copy, PartialEq, Eq, Debug)]
pub struct Gauge {
    pub room: usize,
}

impl Ink for Gauge {
    ghost room = { λ gauge. gauge.room };

    ghost marked = { lower };

    fn put(&mut self, _byte: u8) -> Result<(), Full> {
        self.room = self.room.checked_sub(1).ok_or(Full)?;
        Ok(())
    }
}
