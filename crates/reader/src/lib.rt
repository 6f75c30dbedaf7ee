// A reader over one lent table, without a copy of it: its nodes in row order, and a node by its number.
// A table of a wrong length or with a faulty row gives none. The functions over `Reader` are thin: the work is in
// the functions on the slice and a row, which other callers may use too.
#![tactic(auto)]

ghost use Rattle.std.specs.Prelude.{◌*◌, ◌-◌, ◌≡◌};
ghost use Rattle.std.specs.Iterator.{at_most};
ghost use Rattle.tables.specs.Definitions.Sizes.{node_rows};
ghost use Rattle.reader.specs.Definitions.{nth, numbered, readable, start_row, node_at, row_after, node_of, found_of};

use load::fault::check;
use tables::faults::row_number;
use tables::fields::position_at;
use tables::find::{capacity_in, row_of, sort_in};
use tables::sizes::{NODE, NODE_X, NODE_Y, NODES, TABLE};

#[derive(Clone, Copy)]
pub struct Node {
    pub number: u32,
    pub x: i16,
    pub y: i16,
    pub capacity: u32,
    // Capacity and sort are numbers as the row has them: `found_of` says so of any table, and a sort is a byte there.
    pub sort: u32,
}

// The row of a reader that gives nothing: behind the row at which the nodes of a full table end. A row, and no Option of one:
// `start` promises its callers `start_row`, and of that row `reads_all` and `find_on` speak.
const REFUSED: usize = NODES + 1;

// The row at which reading starts.
pub fn start(t: &[u8]) -> usize
    ensures { result ≡ start_row t.now }
{
    if t.len() != TABLE {
        return REFUSED;
    }
    match check(t) {
        None => 0,
        Some(_) => REFUSED,
    }
}

// The node in row k.
pub fn node_at(t: &[u8], k: usize) -> Option<Node>
    ensures { result ≡ found_of (node_at t.now k) }
{
    if t.len() != TABLE || NODES <= k {
        return None;
    }
    let number = row_number(t, k);
    if number == 0 {
        return None;
    }
    Some(Node {
        number,
        x: position_at(t, NODE * k + NODE_X),
        y: position_at(t, NODE * k + NODE_Y),
        capacity: capacity_in(t, k),
        sort: sort_in(t, k),
    })
}

// The row n nodes behind row k. Reading stays at the end, and what is refused stays so.
pub fn row_after(k: usize, n: usize) -> usize
    ensures { result ≡ row_after k n }
{
    if NODES < k {
        return k;
    }
    k.saturating_add(n).min(NODES)
}

// The node with the number n, for a reader at row k.
pub fn node_of(t: &[u8], k: usize, n: u32) -> Option<Node>
    ensures { result ≡ found_of (node_of t.now k n) }
{
    if t.len() != TABLE || NODES < k {
        return None;
    }
    let row = row_of(t, n)?;
    node_at(t, row)
}

#[derive(Clone, Copy)]
pub struct Reader<'a> {
    table: &'a [u8],
    row: usize,
}

// A reader at the first node. The table is judged here, and only here.
pub fn new<'a>(table: &'a [u8]) -> Reader<'a>
    ensures { (result.table ≡ table.entry) × (result.row ≡ start_row table.now) }
{
    Reader {
        table,
        row: start(table),
    }
}

// The node that the reader is at, or that there is none left.
pub fn read<'a>(r: Reader<'a>) -> Option<Node>
    ensures { result ≡ found_of (node_at r.entry.table.now r.entry.row) }
{
    node_at(r.table, r.row)
}

// The reader n nodes on.
pub fn skip<'a>(r: Reader<'a>, n: usize) -> Reader<'a>
    ensures { (result.table ≡ r.entry.table) × (result.row ≡ row_after r.entry.row n) }
{
    Reader {
        table: r.table,
        row: row_after(r.row, n),
    }
}

// The node with the number n, wherever the reader is.
pub fn find<'a>(r: Reader<'a>, n: u32) -> Option<Node>
    ensures { result ≡ found_of (node_of r.entry.table.now r.entry.row n) }
{
    node_of(r.table, r.row, n)
}

// A loop over a reader gives the nodes from its row on, and leaves the reader where one `skip` after each would.
impl<'a> Iterator for Reader<'a> {
    type Item = Node;

    ghost next_gives = { λ s r t. (r ≡ found_of (node_at s.table.now s.row)) × (t.table ≡ s.table) × (t.row ≡ row_after s.row 1) };

    ghost remaining = { λ s. at_most (node_rows - s.row) };

    fn next(&mut self) -> Option<Node> {
        let node = node_at(self.table, self.row);
        self.row = row_after(self.row, 1);
        node
    }
}

// For callers that hold a slice and no reader: node k of a table, from 0,
pub fn nth_node(table: &[u8], k: usize) -> Option<Node>
    ensures { result ≡ found_of (nth (readable table.now) k) }
{
    read(skip(new(table), k))
}

// and the node with a number.
pub fn look_up(table: &[u8], n: u32) -> Option<Node>
    ensures { result ≡ found_of (numbered n (readable table.now)) }
{
    find(new(table), n)
}
