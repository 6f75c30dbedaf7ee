// The nodes of a table where they lie: how many there are, the row of one by its number, its capacity and its sort.
ghost use Rattle.std.specs.Prelude.{◌≡◌, ◌+◌, ◌*◌, ◌≤◌, ◌<◌, length};
ghost use Rattle.tables.specs.Definitions.Sizes.{capacity_size, node_capacity, node_size, node_rows, table_size};
ghost use Rattle.tables.specs.Definitions.Fields.{nat_at};
ghost use Rattle.tables.specs.Definitions.Tables.{node_from, nodes_in};
ghost use Rattle.tables.specs.Laws.Find.{RowOf};

use super::faults::row_number;
use super::fields::two_at;
use super::sizes::{BYTE_END, NODE, NODE_CAPACITY, NODES};

// How many nodes a table has.
pub fn count(t: &[u8]) -> usize
    requires { length t.now ≡ table_size }
    ensures { (result ≡ length (nodes_in t.now)) × (result ≤ node_rows) }
{
    for k in 0..NODES {
        if row_number(t, k) == 0 {
            return k;
        }
    }
    NODES
}

// The row of the first node with the number n, where there is one.
pub fn row_of(t: &[u8], n: u32) -> Option<usize>
    requires { length t.now ≡ table_size }
    ensures { RowOf t.now n result }
{
    for k in 0..NODES {
        let m = row_number(t, k);
        if m == 0 {
            return None;
        }
        if m == n {
            return Some(k);
        }
    }
    None
}

// The capacity field in row k.
fn field_in(t: &[u8], k: usize) -> u32
    requires { (length t.now ≡ table_size) × (k < node_rows) }
    ensures { result ≡ nat_at capacity_size t.now (node_size * k + node_capacity) }
{
    two_at(t, NODE * k + NODE_CAPACITY)
}

// The capacity in row k.
#[tactic(auto, unfolding(crate::specs::Definitions::Tables::node_from))]
pub fn capacity_in(t: &[u8], k: usize) -> u32
    requires { (length t.now ≡ table_size) × (k < node_rows) }
    ensures { result ≡ (node_from t.now (node_size * k)).capacity }
{
    field_in(t, k) % BYTE_END
}

// The sort in row k.
#[tactic(auto, unfolding(crate::specs::Definitions::Tables::node_from))]
pub fn sort_in(t: &[u8], k: usize) -> u32
    requires { (length t.now ≡ table_size) × (k < node_rows) }
    ensures { result ≡ (node_from t.now (node_size * k)).sort }
{
    field_in(t, k) / BYTE_END
}
