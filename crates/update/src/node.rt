// The rows of one master after a node of its table changed.
ghost use Rattle.std.specs.Prelude.{◌≡◌, length};
ghost use Rattle.matching.specs.Definitions.Nodes.{Unique};
ghost use Rattle.tables.specs.Definitions.Sizes.{table_size};
ghost use Rattle.tables.specs.Definitions.Tables.{nodes_in};
ghost use Rattle.update.specs.Rows.{RowIn, Outdated, Current, OutdatedBoth, CurrentBoth};

use super::rows::{fill, find, redirect};
use load::decode::store;
use load::table::Rows;
use matching::{Master, Range};
use tables::find::{row_of, sort_in};

// The table's row of the node with the number z, where there is one of the sort.
// A sort is a number here, as in `decode`: `Outdated` and `Current` are of `of_sort`, which takes what a table holds.
fn row_in(t: &[u8], z: u32, sort: u32) -> Option<usize>
    requires { (length t.now ≡ table_size) × Unique (nodes_in t.now) }
    ensures { RowIn t.now z sort result }
{
    let k = row_of(t, z)?;
    if sort_in(t, k) != sort {
        return None;
    }
    Some(k)
}

// The node with the number z, where it is of the sort, is written, added or taken out as the table has it. Gives the new end of the sort's range.
fn update_sort(
    t: &[u8],
    z: u32,
    sort: u32,
    r: Range,
    master: Master,
    ns: &mut [u32],
    at: &mut [[i16; 2]],
    cs: &mut [u32],
    limits: &mut [u64],
    places: &mut [[u16; 2]],
) -> usize
    requires { Outdated t.now z sort r ns.old at.old cs.old limits.old }
    ensures { Current t.now sort r ns.old at.old cs.old limits.old
        result ns.new at.new cs.new limits.new
        × (length places.new ≡ length places.old) }
{
    match (row_in(t, z, sort), find(r, ns, z)) {
        (Some(k), Some(row)) => {
            store(t, k, row, ns, at, cs);
            limits[row] = 0;
            r.to
        }
        (Some(k), None) => {
            store(t, k, r.to, ns, at, cs);
            limits[r.to] = 0;
            r.to + 1
        }
        (None, Some(row)) => {
            let last = r.to - 1;
            fill(row, last, ns, at, cs, limits);
            redirect(master, last as u16, row as u16, places);
            last
        }
        (None, None) => r.to,
    }
}

// The same for both sorts: a node that changed its sort is taken out of one range and added to the other.
pub fn update_node(
    t: &[u8],
    z: u32,
    m: Rows,
    master: Master,
    ns: &mut [u32],
    at: &mut [[i16; 2]],
    cs: &mut [u32],
    limits: &mut [u64],
    places: &mut [[u16; 2]],
) -> Rows
    requires { OutdatedBoth t.now z m ns.old at.old cs.old limits.old }
    ensures { CurrentBoth t.now m ns.old at.old cs.old limits.old
        result ns.new at.new cs.new limits.new
        × (length places.new ≡ length places.old) }
{
    let p = update_sort(t, z, 0, m.on, master, ns, at, cs, limits, places);
    let q = update_sort(t, z, 1, m.off, master, ns, at, cs, limits, places);
    Rows {
        on: Range { to: p, ..m.on },
        off: Range { to: q, ..m.off },
    }
}
