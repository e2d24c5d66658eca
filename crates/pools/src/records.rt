// The entries of the pools.
ghost use Rattle.std.specs.Prelude.{◌≡◌, ◌+◌, ◌^◌, ◌<◌};
ghost use Rattle.pools.specs.Parts.{part_of, Inside};

use formats::kind::Kind;

// A part of a pool: where it starts, and how many entries it has. A data buffer is a part of the byte pool.
#[derive(Clone, Copy, PartialEq, Eq, Debug, Default)]
pub struct Part {
    pub start: usize,
    pub len: usize,
}

impl Part {
    // The part's own entries, of all those that it is a part of.
    pub fn of<'a, T>(self, entries: &'a [T]) -> &'a [T]
        requires { Inside entries.now self }
        ensures { result.now ≡ part_of entries.now self }
    {
        let end = self.start + self.len;
        &entries[self.start..end]
    }

    // A range of the part's entries, as a part itself.
    pub fn narrow(self, range: Part) -> Part
        requires { self.start + range.start < 2 ^ 64 }
        ensures { result ≡ record { start = self.start + range.start; len = range.len } }
    {
        Part {
            start: self.start + range.start,
            len: range.len,
        }
    }
}

// A view, as two halves of 64 bits, the low one first.
#[derive(Clone, Copy, PartialEq, Eq, Debug, Default)]
pub struct View {
    pub low: u64,
    pub high: u64,
}

// A node of a column. Its children's nodes come after it, each with all its own, so that `span` counts the nodes of the
// whole subtree; a tree of boxes would need a heap. `place` is where its values, booleans, offsets or views start in the pool that has them.
#[derive(Clone, Copy, PartialEq, Eq, Debug, Default)]
pub struct Node {
    pub kind: Kind,
    pub format: Part,
    pub label: u16,
    pub rows: u32,
    pub children: u8,
    pub span: u16,
    pub mask: Option<usize>,
    pub place: usize,
    pub text: Part,
    pub buffers: Part,
}

// A column: the place of its root among the nodes.
#[derive(Clone, Copy, PartialEq, Eq, Debug, Default)]
pub struct ColumnEntry {
    pub root: usize,
}
