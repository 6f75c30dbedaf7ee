// The first faulty row of a table, by document 01's rule, row by row: exact, and slow where many rows have numbers.
// `load` has the quick way for tables without a fault.
ghost use Rattle.std.specs.Prelude.{◌*◌, ◌<◌, ◌≤◌, ◌≡◌, length};
ghost use Rattle.tables.specs.Definitions.Sizes.{node_rows, table_size};
ghost use Rattle.tables.specs.Definitions.Tables.{row_number, stands_before, faulty, first_fault};

use super::fields::number_at;
use super::rows::{fields_good, fields_zero};
use super::sizes::{NODE, NODES};

// Length and row bound are clauses of each function of a table's bytes: callers lend a slice, and an array would ask more of them.
#[tactic(auto, unfolding(crate::specs::Definitions::Tables::row_number))]
pub fn row_number(t: &[u8], k: usize) -> u32
    requires { (length t.now ≡ table_size) × (k < node_rows) }
    ensures { result ≡ row_number t.now k }
{
    number_at(t, NODE * k)
}

// Whether a row ahead of row k has the number n.
fn stands_before(t: &[u8], k: usize, n: u32) -> bool
    requires { (length t.now ≡ table_size) × (k ≤ node_rows) }
    ensures { result ≡ stands_before t.now k n }
{
    for j in 0..k {
        if row_number(t, j) == n {
            return true;
        }
    }
    false
}

#[tactic(auto, unfolding(crate::specs::Definitions::Tables::faulty))]
fn row_faulty(t: &[u8], k: usize) -> bool
    requires { (length t.now ≡ table_size) × (k < node_rows) }
    ensures { result ≡ faulty t.now k }
{
    let n = row_number(t, k);
    if n == 0 {
        return !fields_zero(t, NODE * k);
    }
    !fields_good(t, NODE * k) || stands_before(t, k, n) || stands_before(t, k, 0)
}

// The first faulty row, or none.
pub fn first_fault(t: &[u8]) -> Option<u16>
    requires { length t.now ≡ table_size }
    ensures { result ≡ first_fault t.now }
{
    for k in 0..NODES {
        if row_faulty(t, k) {
            // A row fits two bytes: try_from would only test it again.
            return Some(k as u16);
        }
    }
    None
}
