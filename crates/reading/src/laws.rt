// What is written with a pen or a gauge, asked for by a contract.
ghost use Rattle.reading.specs.Laws.{PensWriteInFront};

// A text that fits is put where the pen is, and no other byte changes; of one that does not fit the front is put, and the
// rest is refused. A gauge tells whether a text fits.
pub fn pens_write_in_front()
    ensures { PensWriteInFront }
{}
