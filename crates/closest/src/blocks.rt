// The rows of each master in blocks: for each block where its list ends and its least number, and the box around its rows.
ghost use Rattle.std.specs.Prelude.{◌≡◌, ◌<◌, ◌≤◌, length, get_or};
ghost use Rattle.matching.specs.Definitions.Sizes.{set_rows};
ghost use Rattle.closest.specs.Rows.{lent, Held};
ghost use Rattle.closest.specs.Blocks.{Laying, LaidAll, Least, number_of, Kept, Spent};

use crate::live::Lists;
use crate::rows::Rows;
use matching::Range;
use matching::sizes::{BLOCK, BLOCKS};

#[derive(Drop)]
pub struct Blocks {
    pub lists: Lists,
    // An end and a least number as a row of two, as `end_of` and `least_of` read them.
    pub ends: [[u32; 2]; BLOCKS],
    pub boxes: [[i16; 4]; BLOCKS],
}

// The least number from row first to row end.
// `stability` and `repair` have their own: `Least` is of rows first to end, theirs of a range, and of a slice without a promise.
fn lowest(ns: &[u32], first: usize, end: usize) -> u32
    requires { (first < end) × (end ≤ length ns.now) }
    ensures { Least (number_of ns.now) first end result }
{
    let mut n = ns[first];
    // By k: the loop's invariant is `Least` itself, up to row k.
    for k in first + 1..end {
        n = n.min(ns[k]);
    }
    n
}

impl Blocks {
    // Lists the rows of a range that have something left and puts boxes around its rows, block by block.
    pub fn lay(&mut self, r: Range, rows: &Rows, left: &[u32])
        requires { Laying rows.now.ns.now rows.now.at.now left.now r self.old.lists self.old.ends self.old.boxes }
        ensures { LaidAll rows.now.ns.now rows.now.at.now left.now r
            self.old.lists self.old.ends self.old.boxes
            self.new.lists self.new.ends self.new.boxes }
    {
        for b in r.from / BLOCK..r.to.div_ceil(BLOCK) {
            let first = b * BLOCK;
            let end = (first + BLOCK).min(r.to);
            let e = self.lists.gather(first, end, rows, left);
            self.ends[b] = [e as u32, lowest(rows.ns, first, end)];
            self.boxes[b] = boxes::around(rows.at, first, end);
        }
    }

    // A row loses m; where that is all it had, it leaves its block's list.
    // `left` stays beside the blocks, with its length: `Kept` and `Picked` speak of it apart, and a struct's clauses would name it twice.
    pub fn spend(&mut self, row: usize, m: u32, rows: &Rows, left: &mut [u32])
        requires held { Held (lent rows.now) row × (length left.old ≡ set_rows) }
        requires kept { Kept (lent rows.now) left.old self.old.lists self.old.ends }
        requires m_bound { (m ≤ get_or left.old row 0) × (1 ≤ get_or left.old row 0) }
        ensures spent { Spent (lent rows.now) left.old self.old.ends row m left.new self.new.lists self.new.ends }
        ensures boxes { self.new.boxes ≡ self.old.boxes }
    {
        left[row] -= m;
        let b = row / BLOCK;
        let end = self.ends[b][0] as usize;
        let e = self.lists.refresh(row, end, rows, left);
        self.ends[b] = [e as u32, self.ends[b][1]];
    }
}
