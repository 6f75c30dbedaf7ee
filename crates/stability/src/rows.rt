// Rows of a set that follow each other, lent with their limits, and their blocks.
ghost use Rattle.std.specs.Prelude.{◌+◌, ◌*◌, ◌-◌, ◌≤◌, ◌<◌, ◌≡◌, length};
ghost use Rattle.std.specs.Int.{div_ceil};
ghost use Rattle.matching.specs.Definitions.Sizes.{set_rows, block_rows};
ghost use Rattle.stability.specs.Ranges.{Ruled, part as part_of};

use matching::Range;
use matching::sizes::BLOCK;

#[derive(Clone, Copy)]
pub struct Rows<'a> {
    pub ns: &'a [u32],
    pub at: &'a [[i16; 2]],
    pub limits: &'a [u64],
    pub range: Range,
    ghost numbers: { length ns.now ≡ set_rows },
    ghost positions: { length at.now ≡ set_rows },
    ghost keys: { length limits.now ≡ set_rows },
    ghost order: { range.from ≤ range.to },
    ghost end: { range.to ≤ set_rows },
    ghost ruled: { Ruled ns.now at.now limits.now range },
}

impl<'a> Rows<'a> {
    // How many blocks the rows fill, the last one perhaps in part.
    pub fn blocks(self) -> usize
        ensures { result ≡ div_ceil (self.entry.range.to - self.entry.range.from) block_rows }
    {
        (self.range.to - self.range.from).div_ceil(BLOCK)
    }

    // The rows of block g.
    pub fn part(self, g: usize) -> Rows<'a>
        requires { self.range.from + g * block_rows < self.range.to }
        ensures columns { (result.ns ≡ self.entry.ns) × (result.at ≡ self.entry.at) × (result.limits ≡ self.entry.limits) }
        ensures rows { result.range ≡ part_of self.entry.range g }
    {
        let from = self.range.from + g * BLOCK;
        let to = self.range.to.min(from + BLOCK);
        Rows {
            ns: self.ns,
            at: self.at,
            limits: self.limits,
            range: Range { from, to },
        }
    }
}
