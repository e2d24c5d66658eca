// What is asked of a node before its buffers are read, and what its children are to it.
ghost use Rattle.std.specs.Prelude.{◌≡◌, ℕ, ◌<◌, not, ◌&&◌, length, slice_index_or};
ghost use Rattle.columns.specs.Kinds.{is_run_ended};
ghost use Rattle.columns.specs.Sent.{sends as sendsOf};
ghost use Rattle.columns.specs.Heads.{roles as roles_of};
ghost use Rattle.formats.specs.Spelled.{format_meant};
ghost use Rattle.parcels.specs.Roles.{role_of, head_with, role_meant, allowed_meant, free_role};

use crate::draft::{Head, Role, Sends};
use formats::format::{Family, Format, Width};

const MOST_ROWS: u32 = 1_048_576;

const MOST_NODES: usize = 256;

// Whether a kind has a first buffer after its mask, a text buffer and data buffers.
pub fn sends(format: Format) -> Sends
    ensures { (result.body, result.text, result.lent) ≡ sendsOf (format_meant format.entry).kind }
{
    Sends {
        body: !matches!(
            format,
            Format::Struct | Format::RunEnds | Format::FixedList(_)
        ),
        text: matches!(format, Format::Text { .. }),
        lent: matches!(format, Format::View),
    }
}

// How many children a node has; a struct has as many as it says.
fn children_of(format: Format, said: u8) -> u8
    ensures { (rows : ℕ) → result ≡ length (roles_of (format_meant format.entry).kind (head_with said rows)) }
{
    match format {
        Format::Primitive(_, _)
        | Format::Timestamp { .. }
        | Format::Boolean
        | Format::Text { .. }
        | Format::View => 0,
        Format::List { .. } | Format::Map | Format::FixedList(_) => 1,
        Format::Struct => said,
        Format::RunEnds => 2,
    }
}

fn mask_fits(format: Format, masked: bool) -> bool
    ensures { result ≡ not (is_run_ended (format_meant format.entry).kind && masked) }
{
    !(masked && matches!(format, Format::RunEnds))
}

fn can_end(format: Format) -> bool
    ensures { result ≡ (format_meant format.entry).ends }
{
    matches!(
        format,
        Format::Primitive(Family::Signed, Width::Two | Width::Four | Width::Eight)
    )
}

fn is_struct(format: Format) -> bool
    ensures { result ≡ (format_meant format.entry).struct }
{
    matches!(format, Format::Struct)
}

fn role_fits(role: Role, format: Format, h: Head) -> bool
    ensures { result ≡ role_meant (role_of role) (format_meant format.entry) h.masked h.children }
{
    match role {
        Role::Ends(_) => can_end(format) && !h.masked,
        Role::Entries => is_struct(format) && h.children == 2,
        Role::Free => true,
    }
}

// What child k is to a node of this format and so many rows.
pub fn child_role(format: Format, rows: u32, k: u8) -> Role
    ensures { (said : ℕ) → k < length (roles_of (format_meant format.entry).kind (head_with said rows)) → role_of result ≡ slice_index_or (roles_of (format_meant format.entry).kind (head_with said rows)) k free_role }
{
    match format {
        Format::Map => Role::Entries,
        Format::RunEnds => if k == 0 { Role::Ends(rows) } else { Role::Free },
        _ => Role::Free,
    }
}

// The levels and the role are no struct: a child has one level less, and its role by its place and its parent's format.
// The child count is right, no mask is forbidden, the node fits its parent, and no limit is passed.
pub fn allowed(levels: u8, role: Role, format: Format, h: Head, nodes: usize) -> bool
    ensures { result ≡ allowed_meant levels (role_of role) (format_meant format.entry) h.masked h.children h.rows nodes }
{
    h.children == children_of(format, h.children)
        && mask_fits(format, h.masked)
        && role_fits(role, format, h)
        && h.rows <= MOST_ROWS
        && nodes <= MOST_NODES
        && levels > 0
}
