// Blocks of rows that follow each other: a row that is past a whole block, and two blocks that are apart, are told without a look at the blocks' rows.
ghost use Rattle.std.specs.Prelude.{ℕ, ◌≤◌, ◌<◌, ◌≡◌, true, ℤ, length, get_or};
ghost use Rattle.matching.specs.Definitions.Pairs.{squared_distance};
ghost use Rattle.matching.specs.Definitions.Columns.{Inside};
ghost use Rattle.matching.specs.Definitions.Rows.{across, upward};
ghost use Rattle.boxes.specs.Boxes.{Inner};
ghost use Rattle.stability.specs.Ranges.{RowOf};
ghost use Rattle.stability.specs.Blocking.{Blocks};
ghost use Rattle.stability.specs.Blocks.{Holds, Encloses, Surveyed};

use super::rows::Rows;
use crate::sizes;
use matching::{Range, pack};

// The bounding box of some rows, their least number, and the greatest of their limits.
#[derive(Clone, Copy)]
pub struct Block {
    pub bounds: [i16; 4],
    pub least: u32,
    pub limit: u64,
}

// The least number of the range's rows.
// The order of a range is a clause wherever it is needed: `matching`'s Range promises none, and any caller may build one.
fn least(ns: &[u32], r: Range) -> u32
    requires { (r.from ≤ r.to) × (r.to ≤ length ns.now) }
    ensures { (k : ℕ) → RowOf r k → result ≤ get_or ns.now k 0 }
{
    // By k, here and in `limit`: the invariant is the clause up to row k. One for both would take the order as a closure.
    let mut least = u32::MAX;
    for k in r.from..r.to {
        least = least.min(ns[k]);
    }
    least
}

// The greatest limit of the range's rows.
fn limit(limits: &[u64], r: Range) -> u64
    requires { (r.from ≤ r.to) × (r.to ≤ length limits.now) }
    ensures { (k : ℕ) → RowOf r k → get_or limits.now k 0 ≤ result }
{
    let mut limit = 0u64;
    for k in r.from..r.to {
        limit = limit.max(limits[k]);
    }
    limit
}

impl Block {
    // The block of the rows.
    pub fn enclose(rows: Rows) -> Block
        requires { rows.range.from < rows.range.to }
        ensures { Encloses rows.entry.ns.now rows.entry.at.now rows.entry.limits.now rows.entry.range result }
    {
        Block {
            bounds: boxes::around(rows.at, rows.range.from, rows.range.to),
            least: least(rows.ns, rows.range),
            limit: limit(rows.limits, rows.range),
        }
    }

    // A node at p with number n and limit l is past the block: each pair with a row of it is at or past l, or each is at or past the row's limit.
    pub fn is_past(self, p: [i16; 2], n: u32, l: u64) -> bool
        requires { Inside (across p) (upward p) × Inner self.bounds }
        ensures { result ≡ true → (u v : ℤ) (m k : ℕ) → Holds self u v m k → ¬ Blocks (squared_distance (across p) (upward p) u v) n l m k }
    {
        if pack(0, self.least) >= l {
            return true;
        }
        let d = boxes::clearance(p, self.bounds);
        pack(d, self.least) >= l || pack(d, n) >= self.limit
    }

    // Two blocks are apart: each pair of their rows is at or past the limit of its row of this one, or each is at or past that of its row of the other.
    pub fn is_apart(self, other: Block) -> bool
        requires { Inner self.bounds × Inner other.bounds }
        ensures { result ≡ true → (x y u v : ℤ) (n l m k : ℕ) → Holds self x y n l → Holds other u v m k
            → ¬ Blocks (squared_distance x y u v) n l m k }
    {
        let d = boxes::gap(self.bounds, other.bounds);
        pack(d, other.least) >= self.limit || pack(d, self.least) >= other.limit
    }
}

// The blocks of the rows.
pub fn survey(rows: Rows) -> [Block; sizes::BLOCKS]
    ensures { Surveyed rows.entry.ns.now rows.entry.at.now rows.entry.limits.now rows.entry.range result }
{
    // Rows without blocks: no heap, so the array has room for the most blocks of a range.
    let none = Block {
        bounds: [0; 4],
        least: 0,
        limit: 0,
    };
    let mut blocks = [none; sizes::BLOCKS];
    for g in 0..rows.blocks() {
        blocks[g] = Block::enclose(rows.part(g));
    }
    blocks
}
