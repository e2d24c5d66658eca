// A view's halves: its length and prefix, and its position and offset, 32 bits each.
ghost use Rattle.std.specs.Prelude.{◌≡◌, ℕ, ◌+◌, ◌*◌, ◌/◌, ◌%◌, ◌^◌, ◌<◌, List, slice_index};
ghost use Rattle.columns.specs.Column.{short, long};
ghost use Rattle.pools.specs.Held.{view_from};
ghost use Rattle.rows.specs.Views.{parts_of, inline_byte};

use pools::records::View;

// Up to 12 bytes lie in the view itself; a longer text lies in a data buffer, which is named by its position in the
// node's list of buffers.
#[derive(Clone, Copy, PartialEq, Eq, Debug)]
pub enum ViewParts {
    Inline {
        len: u32,
    },
    Buffered {
        len: u32,
        prefix: u32,
        position: u32,
        offset: u32,
    },
}

impl From<View> for ViewParts {
    ghost from_gives = { λ view parts. parts ≡ parts_of view };

    fn from(view: View) -> ViewParts {
        let len = low_bits(view.low);
        if len > 12 {
            ViewParts::Buffered {
                len,
                prefix: high_bits(view.low),
                position: low_bits(view.high),
                offset: high_bits(view.high),
            }
        } else {
            ViewParts::Inline { len }
        }
    }
}

// The view of a text that lies in a data buffer.
pub(crate) fn buffered(len: u32, prefix: u32, position: u32, offset: u32) -> View
    requires { 12 < len }
    ensures is { result ≡ record { low = len + 2 ^ 32 * prefix; high = position + 2 ^ 32 * offset } }
    ensures told { view_from result ≡ long len prefix position offset }
{
    View {
        low: joined(len, prefix),
        high: joined(position, offset),
    }
}

// Byte i of the 12 that follow the length of a short view: its text, and whatever stands after that.
pub fn inline_byte(view: View, i: usize) -> u8
    requires { i < 12 }
    ensures is { result ≡ inline_byte view i }
    ensures told { (len : ℕ) (inline : List ℕ) → view_from view ≡ short len inline → result ≡ slice_index inline i }
{
    if i < 4 {
        view.low.to_le_bytes()[i + 4]
    } else {
        view.high.to_le_bytes()[i - 4]
    }
}

fn low_bits(bits: u64) -> u32
    ensures { result ≡ bits % 2 ^ 32 }
{
    (bits & 0xffff_ffff) as u32
}

fn high_bits(bits: u64) -> u32
    ensures { result ≡ bits / 2 ^ 32 }
{
    (bits >> 32) as u32
}

fn joined(low: u32, high: u32) -> u64
    ensures { result ≡ low + 2 ^ 32 * high }
{
    u64::from(low) | u64::from(high) << 32
}
