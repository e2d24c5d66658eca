use formats::kind::Kind;
use pools::records::Part;

// Where a reading stands: the byte, the nodes begun, the data buffers brought.
#[derive(Clone, Copy, PartialEq, Eq, Debug, Default)]
pub struct Place {
    pub at: usize,
    pub nodes: usize,
    pub brought: usize,
}

#[derive(Clone, Copy, PartialEq, Eq, Debug, Default)]
pub struct Head {
    pub masked: bool,
    pub format: Part,
    pub label: u16,
    pub children: u8,
    pub rows: u32,
}

// What a node is to its parent: the run ends of a node of so many rows, a map's entries, or anything else.
#[derive(Clone, Copy, PartialEq, Eq, Debug, Default)]
pub enum Role {
    Ends(u32),
    Entries,
    #[default]
    Free,
}

// A node's buffers: where they lie, and where the data buffers start, with their count. A first buffer or a text that is not
// sent is an empty part and no `None`, as the rules read it: no byte.
#[derive(Clone, Copy, PartialEq, Eq, Debug, Default)]
pub struct Parts {
    pub mask: Option<Part>,
    pub body: Part,
    pub text: Part,
    pub lent: Part,
}

// Which buffers a node sends after its mask: a first one, a text buffer, data buffers. Each of the eight sets could be, so an enum
// would be no plainer.
#[derive(Clone, Copy, PartialEq, Eq, Debug)]
pub struct Sends {
    pub body: bool,
    pub text: bool,
    pub lent: bool,
}

// What a node's children have: the rows of the first and of the second, and whether all have the node's rows.
#[derive(Clone, Copy, PartialEq, Eq, Debug, Default)]
pub struct Below {
    pub first: u32,
    pub second: u32,
    pub alike: bool,
}

// A node of the parcel, before it is checked.
#[derive(Clone, Copy, PartialEq, Eq, Debug, Default)]
pub struct Draft {
    pub kind: Kind,
    pub role: Role,
    pub head: Head,
    pub parts: Parts,
    pub below: Below,
}
