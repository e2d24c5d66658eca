// Pools 1 to 10, which a call borrows with the marks of the call before. Pool 11, the slip, is lent apart.
ghost use Rattle.std.specs.Prelude.{◌≡◌, ◌^◌, ◌<◌, take};
ghost use Rattle.std.specs.List.{AllByRecursion};
ghost use Rattle.columns.specs.Pools.{plus};
ghost use Rattle.pools.specs.Marked.{marks_of, lengths_of, marked, entries};

use crate::pool::Pool;
use crate::records::{ColumnEntry, Node, Part, View};
use std::ops::Add;

#[derive(Drop)]
pub struct Pools<'a> {
    pub columns: Pool<'a, ColumnEntry>,
    pub nodes: Pool<'a, Node>,
    pub bytes: Pool<'a, u8>,
    pub shorts: Pool<'a, u16>,
    pub words: Pool<'a, u32>,
    pub longs: Pool<'a, u64>,
    pub offsets: Pool<'a, u64>,
    pub views: Pool<'a, View>,
    pub lists: Pool<'a, u32>,
    pub buffers: Pool<'a, Part>,
}

// A number for each pool: its mark, its length, or what is needed of it.
#[derive(Clone, Copy, PartialEq, Eq, Debug, Default)]
pub struct Marks {
    pub columns: usize,
    pub nodes: usize,
    pub bytes: usize,
    pub shorts: usize,
    pub words: usize,
    pub longs: usize,
    pub offsets: usize,
    pub views: usize,
    pub lists: usize,
    pub buffers: usize,
}

// Field by field, as in the methods of `Pools` below: no derive makes a sum, and pools of different entries have no common type
// to go over.
impl Add for Marks {
    type Output = Marks;

    // each sum is a number of 64 bits
    ghost can_add = { λ a b. AllByRecursion (λ n. n < 2 ^ 64) (plus (entries a) (entries b)) };

    ghost add_gives = { λ a b sum. entries sum ≡ take 10 (plus (entries a) (entries b)) };

    fn add(self, other: Marks) -> Marks {
        Marks {
            columns: self.columns + other.columns,
            nodes: self.nodes + other.nodes,
            bytes: self.bytes + other.bytes,
            shorts: self.shorts + other.shorts,
            words: self.words + other.words,
            longs: self.longs + other.longs,
            offsets: self.offsets + other.offsets,
            views: self.views + other.views,
            lists: self.lists + other.lists,
            buffers: self.buffers + other.buffers,
        }
    }
}

impl Pools<'_> {
    pub fn marks(&self) -> Marks
        ensures { result ≡ marks_of self.now }
    {
        Marks {
            columns: self.columns.mark,
            nodes: self.nodes.mark,
            bytes: self.bytes.mark,
            shorts: self.shorts.mark,
            words: self.words.mark,
            longs: self.longs.mark,
            offsets: self.offsets.mark,
            views: self.views.mark,
            lists: self.lists.mark,
            buffers: self.buffers.mark,
        }
    }

    // How many entries are lent, pool by pool.
    pub fn lengths(&self) -> Marks
        ensures { result ≡ lengths_of self.now }
    {
        Marks {
            columns: self.columns.lent.len(),
            nodes: self.nodes.lent.len(),
            bytes: self.bytes.lent.len(),
            shorts: self.shorts.lent.len(),
            words: self.words.lent.len(),
            longs: self.longs.lent.len(),
            offsets: self.offsets.lent.len(),
            views: self.views.lent.len(),
            lists: self.lists.lent.len(),
            buffers: self.buffers.lent.len(),
        }
    }

    // Takes up the marks that an earlier call left. What is lent stays.
    pub fn resume(&mut self, marks: Marks)
        ensures { self.new ≡ marked marks self.old }
    {
        self.columns.mark = marks.columns;
        self.nodes.mark = marks.nodes;
        self.bytes.mark = marks.bytes;
        self.shorts.mark = marks.shorts;
        self.words.mark = marks.words;
        self.longs.mark = marks.longs;
        self.offsets.mark = marks.offsets;
        self.views.mark = marks.views;
        self.lists.mark = marks.lists;
        self.buffers.mark = marks.buffers;
    }
}
