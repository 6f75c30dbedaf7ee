// The widths, offsets, counts and ranges of document 01, 'Rows and buffers'. No other file of src/ has these numbers.

// A node: number, horizontal, vertical, capacity with the sort. A table: so many rows of these.
pub const NODE_X: usize = 2;

pub const NODE_Y: usize = 4;

pub const NODE_CAPACITY: usize = 6;

pub const NODE: usize = 8;

pub const NODES: usize = matching::sizes::NODES;

pub const TABLE: usize = 4096;

// The ranges of its fields.
pub const FARTHEST: i16 = matching::sizes::EDGE;

pub const MOST: u32 = 64;

pub const MOST_SORT: u32 = 1;

// The capacity field: below this the capacity, its multiples the sort.
pub const BYTE_END: u32 = 256;

// A link: A number, B number, squared distance, amount, and their widths. The list: so many rows of these.
pub const NUMBER: usize = 2;

pub const DISTANCE: usize = 4;

pub const AMOUNT: usize = 2;

pub const LINK_B: usize = 2;

pub const LINK_DISTANCE: usize = 4;

pub const LINK_AMOUNT: usize = 8;

pub const LINK: usize = 10;

pub const LINKS: usize = matching::sizes::LINKS;

pub const LIST: usize = 10230;

// An edit: kind, master, and then a node.
pub const EDIT_NUMBER: usize = 2;

pub const EDIT_X: usize = 4;

pub const EDIT_Y: usize = 6;

pub const EDIT_CAPACITY: usize = 8;

pub const EDIT: usize = 10;

// The counts of Bands.
pub const BANDS: usize = 33;

pub const COUNT: usize = 2;

pub const COUNTS: usize = 66;
