// A block's rows copied into arrays, so that LLVM knows how often a loop over them runs.
ghost use Rattle.std.specs.Prelude.{◌%◌, ◌≤◌, ◌<◌, ◌≡◌};
ghost use Rattle.matching.specs.Definitions.Sizes.{block_rows, number_range, set_rows};
ghost use Rattle.stability.specs.Lanes.{row_of, Copied};

use super::rows::Rows;
use matching::Range;
use matching::sizes::{BLOCK, RANGE};

// Each lane's number, position, and limit as a distance and a number.
#[derive(Drop)]
pub struct Lanes {
    pub numbers: [u32; BLOCK],
    pub x: [i16; BLOCK],
    pub y: [i16; BLOCK],
    pub far: [u32; BLOCK],
    pub high: [u32; BLOCK],
}

// The number in a key.
pub fn number(key: u64) -> u32
    ensures { result ≡ key % number_range }
{
    (key % RANGE) as u32
}

// The row of lane k: a block that has no such row repeats its last one, and with it pairs that are looked at anyway.
fn row(k: usize, r: Range) -> usize
    requires { (k < block_rows) × (r.from < r.to) × (r.to ≤ set_rows) }
    ensures { (result < r.to) × (result ≡ row_of r k) }
{
    (r.from + k).min(r.to - 1)
}

impl Lanes {
    // Lanes to fill.
    pub fn new() -> Lanes {
        Lanes {
            numbers: [0; BLOCK],
            x: [0; BLOCK],
            y: [0; BLOCK],
            far: [0; BLOCK],
            high: [0; BLOCK],
        }
    }

    // Copies the rows.
    pub fn fill(&mut self, rows: Rows)
        requires { rows.range.from < rows.range.to }
        ensures { Copied rows.entry.ns.now rows.entry.at.now rows.entry.limits.now rows.entry.range self.new block_rows }
    {
        for k in 0..BLOCK {
            let i = row(k, rows.range);
            self.numbers[k] = rows.ns[i];
            self.x[k] = rows.at[i][0];
            self.y[k] = rows.at[i][1];
            self.far[k] = matching::distance(rows.limits[i]);
            self.high[k] = number(rows.limits[i]);
        }
    }
}
