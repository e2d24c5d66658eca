// Decimal numbers, as the size of a fixed-size list is spelled.
ghost use Rattle.std.specs.Prelude.{◌≡◌, ℕ, ◌+◌, ◌-◌, ◌*◌, ◌<◌, ◌≤◌, length};
ghost use Rattle.formats.specs.Spelled.{digit_of, capped, lifted, digits_from};
ghost use Rattle.columns.specs.Format.{decimal as decimal_of};

// A size is at most so high.
const MOST_SIZE: u32 = 2_147_483_647;

// The value of a digit.
fn digit(letter: char) -> Option<u32>
    ensures { result ≡ digit_of letter }
{
    // by itself, so that the loop below is told of digits as the theory spells them
    letter.to_digit(10)
}

// A number that is not above the highest size.
fn cap(n: u64) -> Option<u32>
    ensures { result ≡ capped n }
{
    u32::try_from(n).ok().filter(|n| *n <= MOST_SIZE)
}

// The number that the digits come to.
fn value(digits: &[u8]) -> Option<u32>
    ensures { result ≡ digits_from digits.now 0 }
{
    let mut n = 0;
    for b in digits {
        let d = digit(char::from(*b))?;
        n = cap(10 * u64::from(n) + u64::from(d))?;
    }
    Some(n)
}

// A decimal number with no leading zero, at most 2,147,483,647.
pub fn number(digits: &[u8]) -> Option<u32>
    ensures { result ≡ lifted (decimal_of digits.now) }
{
    match digits {
        [] => None,
        [_] => value(digits),
        [b'0', ..] => None,
        _ => value(digits),
    }
}
