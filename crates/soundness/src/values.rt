// Numbers as they lie in a buffer, the lowest byte first.
ghost use Rattle.std.specs.Prelude.{◌≡◌, ℕ, ◌-◌, ◌*◌, ◌^◌, ◌<◌, ◌≤◌, Bool, length, take};
ghost use Rattle.columns.specs.Column.{bytes_for};
ghost use Rattle.columns.specs.Sound.{little_endian};
ghost use Rattle.formats.specs.Spelled.{bytes_of, wide_bytes};
ghost use Rattle.soundness.specs.Walks.{all_values, walked};

use formats::format::Width;
use pools::laid::Laid;

// The value that a buffer begins with.
fn first_value(bytes: &[u8], width: Width) -> u64
    requires { bytes_of width ≤ length bytes.now }
    ensures { result ≡ little_endian (take (bytes_of width) bytes.now) }
{
    match width {
        Width::One => u64::from(bytes[0]),
        Width::Two => u64::from(u16::first_of(bytes)),
        Width::Four => u64::from(u32::first_of(bytes)),
        Width::Eight => u64::first_of(bytes),
    }
}

// The last of a buffer's values, if each follows the one before it, and the first follows 0. Where the size of a value is a
// constant, the loop over them is the faster one, so it stands apart.
fn last_of<const N: usize, F: Fn(u64, u64) -> bool>(
    body: &[u8],
    width: Width,
    follows: F,
) -> Option<u64>
    requires callable { F.IsAlwaysCallable follows }
    requires sized { N ≡ bytes_of width }
    ensures { (test : ℕ → ℕ → Bool) → ((low next : ℕ) (r : Bool) → F.post follows low next r → r ≡ test low next)
        → result ≡ walked test 0 (all_values (bytes_of width) body.now) }
{
    // Tried: `try_fold` over the entries. Its closure has to ask once more that `follows` can be called and that an entry
    // has the width's bytes, and the goals `follows-requires` and `returns` stayed open.
    let mut low = 0;
    for entry in body.chunks_exact(N) {
        let next = first_value(entry, width);
        if !follows(low, next) {
            return None;
        }
        low = next;
    }
    Some(low)
}

// The same for values of any width.
pub(crate) fn last_in_order<F: Fn(u64, u64) -> bool>(
    body: &[u8],
    width: Width,
    follows: F,
) -> Option<u64>
    requires { F.IsAlwaysCallable follows }
    ensures { (test : ℕ → ℕ → Bool) → ((low next : ℕ) (r : Bool) → F.post follows low next r → r ≡ test low next)
        → result ≡ walked test 0 (all_values (bytes_of width) body.now) }
{
    match width {
        Width::One => last_of::<1, F>(body, width, follows),
        Width::Two => last_of::<2, F>(body, width, follows),
        Width::Four => last_of::<4, F>(body, width, follows),
        Width::Eight => last_of::<8, F>(body, width, follows),
    }
}

// The lowest number that is below 0 when it is read as signed.
pub fn half(width: Width) -> u64
    ensures is { result ≡ 2 ^ (8 * bytes_of width - 1) }
    ensures some { 0 < result }
{
    1 << (8 * width.bytes() - 1)
}

// The width of offsets.
pub fn offset_width(wide: bool) -> Width
    ensures { bytes_of result ≡ wide_bytes wide }
{
    if wide { Width::Eight } else { Width::Four }
}

// The bytes that a bit for each row takes.
// That there are at most 1048576 rows is asked here and where this is called. A type for a count of rows would be made
// and taken apart at each use.
pub fn bit_bytes(rows: usize) -> usize
    requires { rows ≤ 1048576 }
    ensures is { result ≡ bytes_for rows }
    ensures low { result ≤ 131072 }
{
    rows.div_ceil(8)
}
