// Entries as they lie in a buffer, lowest byte first.
ghost use Rattle.std.specs.Prelude.{◌≡◌, ℕ, ◌≤◌, List, length};
ghost use Rattle.pools.specs.Laid.{number_in, halves_in};

use crate::records::View;

// An entry that takes so many bytes of a buffer, whatever they hold.
pub trait Laid: Copy {
    const SIZE: usize;

    ghost SIZE: { ℕ };

    // what the first bytes tell
    ghost told: { List ℕ → Self };

    // The entry that a buffer begins with.
    fn first_of(bytes: &[u8]) -> Self
        requires { SIZE ≤ length bytes.now }
        ensures { result ≡ told bytes.now };
}

// The widths have an impl each, since no trait of the library has `from_le_bytes`.
impl Laid for u16 {
    const SIZE: usize = 2;

    ghost SIZE = { 2 };

    ghost told = { number_in 2 };

    fn first_of(bytes: &[u8]) -> u16 {
        u16::from_le_bytes(*bytes.first_chunk().unwrap())
    }
}

impl Laid for u32 {
    const SIZE: usize = 4;

    ghost SIZE = { 4 };

    ghost told = { number_in 4 };

    fn first_of(bytes: &[u8]) -> u32 {
        u32::from_le_bytes(*bytes.first_chunk().unwrap())
    }
}

impl Laid for u64 {
    const SIZE: usize = 8;

    ghost SIZE = { 8 };

    ghost told = { number_in 8 };

    fn first_of(bytes: &[u8]) -> u64 {
        u64::from_le_bytes(*bytes.first_chunk().unwrap())
    }
}

impl Laid for View {
    const SIZE: usize = 16;

    ghost SIZE = { 16 };

    ghost told = { halves_in };

    fn first_of(bytes: &[u8]) -> View {
        View {
            low: u64::first_of(bytes),
            high: u64::first_of(&bytes[8..]),
        }
    }
}
