// A table's nodes of one sort into rows of the set.
ghost use Rattle.std.specs.Prelude.{◌+◌, ◌*◌, ◌<◌, ◌≤◌, ◌≡◌, length};
ghost use Rattle.matching.specs.Definitions.Nodes.{of_sort};
ghost use Rattle.matching.specs.Definitions.Sizes.{node_rows, set_rows};
ghost use Rattle.tables.specs.Definitions.Sizes.{node_size, table_size};
ghost use Rattle.tables.specs.Definitions.Tables.{node_from, nodes_in};
ghost use Rattle.load.specs.Load.{Columns, Stored, Advanced, Decoded};

use tables::faults::row_number;
use tables::fields::position_at;
use tables::find::{capacity_in, sort_in};
use tables::sizes::{NODE, NODE_X, NODE_Y, NODES};

// Stores the node of the table's row k in row i of the set.
// Lengths and bounds stay clauses, here and below: callers lend a table and columns as slices, and arrays would ask more of them.
pub fn store(t: &[u8], k: usize, i: usize, ns: &mut [u32], at: &mut [[i16; 2]], cs: &mut [u32])
    requires { (length t.now ≡ table_size) × (k < node_rows) × (i < set_rows) × Columns ns.old at.old cs.old }
    ensures { Stored (node_from t.now (node_size * k)) i
        ns.old at.old cs.old ns.new at.new cs.new }
{
    ns[i] = row_number(t, k);
    at[i] = [
        position_at(t, NODE * k + NODE_X),
        position_at(t, NODE * k + NODE_Y),
    ];
    cs[i] = capacity_in(t, k);
}

// The next free row after row i was written: row i itself where its node is of another sort.
// Two arms, as `Advanced` has two cases: two numbers to choose from, and no step to jump over, since sorts follow no pattern.
// A sort is a number, as any byte may stand for one in a table.
fn advance(i: usize, sort: u32, wanted: u32) -> usize
    requires { i < set_rows }
    ensures { Advanced i sort wanted result }
{
    if sort == wanted { i + 1 } else { i }
}

// Stores the node of the table's row k in row i, to be written over where it is not of the sort; gives the next free row.
fn enter(
    t: &[u8],
    sort: u32,
    k: usize,
    i: usize,
    ns: &mut [u32],
    at: &mut [[i16; 2]],
    cs: &mut [u32],
) -> usize
    requires { (length t.now ≡ table_size) × (k < node_rows) × (i < set_rows) × Columns ns.old at.old cs.old }
    ensures { Stored (node_from t.now (node_size * k)) i
        ns.old at.old cs.old ns.new at.new cs.new
        × Advanced i (node_from t.now (node_size * k)).sort sort result }
{
    store(t, k, i, ns, at, cs);
    advance(i, sort_in(t, k), sort)
}

// Stores the nodes of the sort, of the rows ahead of the first without a number, in the rows from `from` on; gives their end, a row that is free.
pub fn decode(
    t: &[u8],
    sort: u32,
    from: usize,
    ns: &mut [u32],
    at: &mut [[i16; 2]],
    cs: &mut [u32],
) -> usize
    requires { (length t.now ≡ table_size) × (from + length (of_sort sort (nodes_in t.now)) < set_rows) × Columns ns.old at.old cs.old }
    ensures { Decoded t.now sort from result
        ns.old at.old cs.old ns.new at.new cs.new }
{
    let mut i = from;
    for k in 0..NODES {
        if row_number(t, k) == 0 {
            break;
        }
        i = enter(t, sort, k, i, ns, at, cs);
    }
    i
}
