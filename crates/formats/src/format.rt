// Format strings, read character by character.
ghost use Rattle.std.specs.Prelude.{◌≡◌, ℕ, ◌+◌, ◌-◌, ◌*◌, ◌<◌, ◌≤◌, length};
ghost use Rattle.formats.specs.Spelled.{bytes_of, meant, spelled, plain_of, tick_of, clock_of, timed_of, two_chars, one_char, told};

use crate::decimal::number;

// The bytes of a value.
#[derive(Clone, Copy, PartialEq, Eq, Debug)]
pub enum Width {
    One,
    Two,
    Four,
    Eight,
}

impl Width {
    pub fn bytes(self) -> usize
        ensures is { result ≡ bytes_of self }
        ensures low { result ≤ 8 }
    {
        match self {
            Width::One => 1,
            Width::Two => 2,
            Width::Four => 4,
            Width::Eight => 8,
        }
    }
}

// What a primitive value stands for.
#[derive(Clone, Copy, PartialEq, Eq, Debug)]
pub enum Family {
    Signed,
    Unsigned,
    Float,
    Date,
    Time,
    Duration,
    Interval,
}

// A unit of time.
#[derive(Clone, Copy, PartialEq, Eq, Debug)]
pub enum Tick {
    Second,
    Milli,
    Micro,
    Nano,
}

// What a format string spells. A timestamp's zone is a part of the string itself; `wide` offsets have 64 bits
// and others 32: a `Width` would also say that they have 8 or 16.
#[derive(Clone, Copy)]
pub enum Format<'a> {
    Primitive(Family, Width),
    Timestamp { unit: Tick, zone: &'a [u8] },
    Boolean,
    Text { wide: bool },
    View,
    List { wide: bool },
    Map,
    Struct,
    RunEnds,
    FixedList(u32),
}

// A letter that alone spells a primitive.
fn plain(letter: char) -> Option<(Family, Width)>
    ensures { result ≡ plain_of letter }
{
    match letter {
        'c' => Some((Family::Signed, Width::One)),
        'C' => Some((Family::Unsigned, Width::One)),
        's' => Some((Family::Signed, Width::Two)),
        'S' => Some((Family::Unsigned, Width::Two)),
        'e' => Some((Family::Float, Width::Two)),
        'i' => Some((Family::Signed, Width::Four)),
        'I' => Some((Family::Unsigned, Width::Four)),
        'f' => Some((Family::Float, Width::Four)),
        'l' => Some((Family::Signed, Width::Eight)),
        'L' => Some((Family::Unsigned, Width::Eight)),
        'g' => Some((Family::Float, Width::Eight)),
        _ => None,
    }
}

// A letter that spells a unit of time. No `TryFrom`, since no caller would look at its error.
fn tick_of(letter: char) -> Option<Tick>
    ensures { result ≡ tick_of letter }
{
    match letter {
        's' => Some(Tick::Second),
        'm' => Some(Tick::Milli),
        'u' => Some(Tick::Micro),
        'n' => Some(Tick::Nano),
        _ => None,
    }
}

// The width of a time of day.
fn clock(unit: Tick) -> Width
    ensures { result ≡ clock_of unit }
{
    match unit {
        Tick::Second | Tick::Milli => Width::Four,
        Tick::Micro | Tick::Nano => Width::Eight,
    }
}

// Dates, times, durations and intervals: what stands after the `t`.
fn timed(family: char, unit: char) -> Option<(Family, Width)>
    ensures { result ≡ timed_of family unit }
{
    match family {
        'd' => match unit {
            'D' => Some((Family::Date, Width::Four)),
            'm' => Some((Family::Date, Width::Eight)),
            _ => None,
        },
        'i' => match unit {
            'M' => Some((Family::Interval, Width::Four)),
            'D' => Some((Family::Interval, Width::Eight)),
            _ => None,
        },
        't' => {
            let unit = tick_of(unit)?;
            Some((Family::Time, clock(unit)))
        }
        'D' => {
            let _unit = tick_of(unit)?;
            Some((Family::Duration, Width::Eight))
        }
        _ => None,
    }
}

// A format of two letters.
fn two<'a>(first: char, second: char) -> Option<Format<'a>>
    ensures { meant result ≡ two_chars first second }
{
    match first {
        'v' => match second {
            'u' | 'z' => Some(Format::View),
            _ => None,
        },
        '+' => match second {
            'l' => Some(Format::List { wide: false }),
            'L' => Some(Format::List { wide: true }),
            'm' => Some(Format::Map),
            's' => Some(Format::Struct),
            'r' => Some(Format::RunEnds),
            _ => None,
        },
        _ => None,
    }
}

// A format of one letter.
fn one<'a>(letter: char) -> Option<Format<'a>>
    ensures { meant result ≡ one_char letter }
{
    match letter {
        'b' => Some(Format::Boolean),
        'u' | 'z' => Some(Format::Text { wide: false }),
        'U' | 'Z' => Some(Format::Text { wide: true }),
        letter => {
            let (family, width) = plain(letter)?;
            Some(Format::Primitive(family, width))
        }
    }
}

// A format of three letters or more.
fn long<'a>(format: &'a [u8]) -> Option<Format<'a>>
    requires { 3 ≤ length format.now }
    ensures { meant result ≡ spelled format.now }
{
    match format {
        [b't', b's', unit, b':', zone @ ..] => {
            let unit = tick_of(char::from(*unit))?;
            Some(Format::Timestamp { unit, zone })
        }
        [b'+', b'w', b':', digits @ ..] => {
            let n = number(digits)?;
            Some(Format::FixedList(n))
        }
        [b't', family, unit] => {
            let (family, width) = timed(char::from(*family), char::from(*unit))?;
            Some(Format::Primitive(family, width))
        }
        _ => None,
    }
}

// What a format string says, or nothing where it is none of the spellings.
pub fn read_format<'a>(format: &'a [u8]) -> Option<Format<'a>>
    ensures { meant result ≡ told format.now }
{
    match format {
        [] => None,
        [a] => one(char::from(*a)),
        [a, b] => two(char::from(*a), char::from(*b)),
        _ => long(format),
    }
}
