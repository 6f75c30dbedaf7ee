// A table's nodes in the set: a range of rows for each sort, in order.
ghost use Rattle.std.specs.Prelude.{◌+◌, ◌≤◌, ◌<◌, ◌≡◌, length};
ghost use Rattle.matching.specs.Definitions.Nodes.{of_sort};
ghost use Rattle.matching.specs.Definitions.Sizes.{half, set_rows};
ghost use Rattle.tables.specs.Definitions.Sizes.{table_size};
ghost use Rattle.tables.specs.Definitions.Tables.{nodes_in};
ghost use Rattle.load.specs.Load.{Columns, Decoded, NextBlock, Whole};

use crate::decode::decode;
use matching::sizes::BLOCK;
use matching::{BySort, Range};
use tables::find::count;

// The rows of a master by sort.
pub type Rows = BySort<Range>;

// The nodes of a sort in order in the rows from `from` on.
fn place(
    t: &[u8],
    sort: u32,
    from: usize,
    ns: &mut [u32],
    at: &mut [[i16; 2]],
    cs: &mut [u32],
) -> Range
    requires { (length t.now ≡ table_size) × (from + length (of_sort sort (nodes_in t.now)) < set_rows) × Columns ns.old at.old cs.old }
    ensures { (result.from ≡ from) × Decoded t.now sort result.from result.to
        ns.old at.old cs.old ns.new at.new cs.new }
{
    let to = decode(t, sort, from, ns, at, cs);
    packing::arrange(Range { from, to }, ns, at, cs);
    Range { from, to }
}

// The first row of a block past row k: a row is free ahead of it.
fn next_block(k: usize) -> usize
    requires { k < set_rows }
    ensures { NextBlock k result }
{
    (k / BLOCK + 1) * BLOCK
}

// The nodes of both sorts, in the rows of a master from `from` on. A table of on-curve nodes is read once.
pub fn table(t: &[u8], from: usize, ns: &mut [u32], at: &mut [[i16; 2]], cs: &mut [u32]) -> Rows
    requires { (length t.now ≡ table_size) × (from + half ≤ set_rows) × Columns ns.old at.old cs.old }
    ensures { Whole t.now from result
        ns.old at.old cs.old ns.new at.new cs.new }
{
    let on = place(t, 0, from, ns, at, cs);
    let start = next_block(on.to);
    if count(t) == on.to - on.from {
        return Rows {
            on,
            off: Range {
                from: start,
                to: start,
            },
        };
    }
    let off = place(t, 1, start, ns, at, cs);
    Rows { on, off }
}
