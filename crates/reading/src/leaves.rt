// The text of a row of a node without children.
ghost use Rattle.std.specs.Prelude.{◌≡◌, ◌≤◌, [], ◌∷◌, take};
ghost use Rattle.pools.specs.Store.{store};
ghost use Rattle.reading.specs.Inked.{Wrote};
ghost use Rattle.reading.specs.Raw.{bit_text, quoted, inline, viewed, ViewIn, leaf_text, LeafIn};

use crate::ink::{Full, Ink};
use crate::shown::Shown;
use formats::kind::Kind;
use pools::records::{Node, View};
use rows::buffers::buffered_text;
use rows::ranges::text_at;
use rows::runs::number_at;
use rows::values::{bit_at, value_at};
use rows::views::ViewParts;

// The letter of a bit.
fn letter(bit: bool) -> u8
    ensures { result ∷ [] ≡ bit_text bit }
{
    if bit { b't' } else { b'f' }
}

// The first bytes of those that lie in a view, after its length: four in the low half, then eight in the high one.
fn short<I: Ink>(ink: &mut I, len: u8, view: View) -> Result<(), Full>
    requires { len ≤ 12 }
    ensures { Wrote I.room I.marked ink.old (quoted (take len (inline view))) ink.new result }
{
    let front = len.min(4);
    ink.put(b'"')?;
    ink.low_bytes(front, view.low >> 32)?;
    ink.low_bytes(len - front, view.high)?;
    ink.put(b'"')
}

impl Shown<'_> {
    // The text of a view: that of a long one lies in a data buffer that the node's list names.
    fn view_text<I: Ink>(self, ink: &mut I, node: &Node, view: View) -> Result<(), Full>
        requires { ViewIn (store self.pools.now) node.now.buffers view }
        ensures { Wrote I.room I.marked ink.old (quoted (viewed (store self.entry.pools.now) node.now.buffers view)) ink.new result }
    {
        match ViewParts::from(view) {
            ViewParts::Inline { len } => short(ink, len as u8, view),
            ViewParts::Buffered {
                len,
                prefix: _,
                position,
                offset,
            } => {
                let text = buffered_text(
                    self.pools,
                    node,
                    position as usize,
                    offset as usize,
                    len as usize,
                );
                ink.quoted(self.pools.bytes.part(text))
            }
        }
    }

    // The text of a row of a node without children.
    pub(crate) fn leaf<I: Ink>(self, ink: &mut I, node: &Node, row: usize) -> Result<(), Full>
        requires { LeafIn (store self.pools.now) node.now node.now.kind row }
        ensures { Wrote I.room I.marked ink.old (leaf_text (store self.entry.pools.now) node.now node.now.kind row) ink.new result }
    {
        match node.kind {
            Kind::Primitive(width) => {
                let value = number_at(self.pools, width, node.place + row);
                ink.number(width.bytes() as u8, value)
            }
            Kind::Boolean => ink.put(letter(bit_at(&self.pools.bytes, node.place, row))),
            Kind::Text { .. } => {
                let text = text_at(&self.pools.offsets, node, row);
                ink.quoted(self.pools.bytes.part(text))
            }
            Kind::View => {
                let view = value_at(&self.pools.views, node.place, row);
                self.view_text(ink, node, view)
            }
            _ => Ok(()),
        }
    }
}
