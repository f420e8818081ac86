// The elements of a vector: the place of the first, and how many there are. Of an absent vector both are 0. It is no slice, since
// a record is plain data that outlives the borrow of the bytes.
#[derive(Clone, Copy)]
pub struct Part {
    pub from: u32,
    pub count: u32,
}

// What a verified table holds. Tables name each other by number, since their records lie in a slice that the caller lends.
#[derive(Clone, Copy)]
pub struct Table {
    pub rows: u64,
    pub metadata: Part,
    pub segments: Part,
    // Where the table stands in the bytes.
    pub place: u32,
    // The number of its parent; the root's is 0.
    pub parent: u32,
    // The root has depth 1.
    pub depth: u32,
    // Its place among its parent's children, from 0; the root's is 0.
    pub index: u32,
    // How many children it has.
    pub children: u32,
    // How many tables stand below it: its children, and what is below them.
    pub below: u32,
    pub encoding: u16,
}

// A node of the tree: its table, and the mark that a layer above keeps with it. The caller lends a slice of records, since nothing
// here allocates.
#[derive(Clone, Copy)]
pub struct Record<M> {
    pub table: Table,
    pub mark: Option<M>,
}

// How deep tables may stand, and how many there may be.
#[derive(Clone, Copy)]
pub struct Limits {
    // 1 to 64.
    pub levels: u32,
    // 1 to 4,096.
    pub tables: u32,
}

impl Limits {
    // The greatest limits.
    pub const GREATEST: Limits = Limits {
        levels: 64,
        tables: 4096,
    };
}
