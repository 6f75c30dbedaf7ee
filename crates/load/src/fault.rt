// The verdict on a table that is in the set.
ghost use Rattle.std.specs.Prelude.{ℕ, ◌*◌, ◌<◌, ◌≤◌, ◌≡◌, true, None, length};
ghost use Rattle.tables.specs.Definitions.Sizes.{node_size, node_rows, table_size};
ghost use Rattle.tables.specs.Definitions.Tables.{fields_good, first_fault};
ghost use Rattle.load.specs.Index.{Indexed, Named};
ghost use Rattle.load.specs.Fault.{ZeroRow};

use crate::index::{SLOTS, index};
use crate::table::{Rows, table};
use matching::sizes::ROWS;
use tables::faults::{first_fault, row_number};
use tables::rows::{fields_good, fields_zero};
use tables::sizes::{NODE, NODES};

// The first n rows have their fields within range.
fn rows_good(t: &[u8], n: usize) -> bool
    requires { (length t.now ≡ table_size) × (n ≤ node_rows) }
    ensures { result ≡ true → (k : ℕ) → k < n → fields_good t.now (node_size * k) ≡ true }
{
    for k in 0..n {
        if !fields_good(t, NODE * k) {
            return false;
        }
    }
    true
}

fn row_zero(t: &[u8], k: usize) -> bool
    requires { (length t.now ≡ table_size) × (k < node_rows) }
    ensures { result ≡ true → ZeroRow t.now k }
{
    row_number(t, k) == 0 && fields_zero(t, NODE * k)
}

// The rows from row n on are zero.
fn rows_zero(t: &[u8], n: usize) -> bool
    requires { length t.now ≡ table_size }
    ensures { result ≡ true → (k : ℕ) → n ≤ k → k < node_rows → ZeroRow t.now k }
{
    for k in n..NODES {
        if !row_zero(t, k) {
            return false;
        }
    }
    true
}

// Whether a table whose numbers stand in the rows is without a fault. Quick, and never wrong where it says so.
fn sound(t: &[u8], r: Rows, ns: &[u32], heads: &mut [u16], next: &mut [u16]) -> bool
    requires { (length t.now ≡ table_size) × Named t.now r ns.now × Indexed heads.old next.old }
    ensures { (result ≡ true → first_fault t.now ≡ None) × Indexed heads.new next.new }
{
    let n = (r.on.to - r.on.from) + (r.off.to - r.off.from);
    rows_good(t, n) && rows_zero(t, n) && index(r, ns, heads, next)
}

// The first faulty row of a table whose numbers stand in the rows, which are indexed.
pub fn fault(t: &[u8], r: Rows, ns: &[u32], heads: &mut [u16], next: &mut [u16]) -> Option<u16>
    requires { (length t.now ≡ table_size) × Named t.now r ns.now × Indexed heads.old next.old }
    ensures { (result ≡ first_fault t.now) × Indexed heads.new next.new }
{
    if sound(t, r, ns, heads, next) {
        return None;
    }
    first_fault(t)
}

// The same for a table alone, in rows of its own.
pub fn check(t: &[u8]) -> Option<u16>
    requires { length t.now ≡ table_size }
    ensures { result ≡ first_fault t.now }
{
    let mut ns = [0u32; ROWS];
    let mut at = [[0i16; 2]; ROWS];
    let mut cs = [0u32; ROWS];
    let mut heads = [0u16; SLOTS];
    let mut next = [0u16; ROWS];
    let r = table(t, 0, &mut ns, &mut at, &mut cs);
    fault(t, r, &ns, &mut heads, &mut next)
}
