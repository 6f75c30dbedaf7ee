// Both masters' nodes in one set of rows, lent: columns of numbers, positions and capacities, and the rows of each sort.
ghost use Rattle.std.specs.Prelude.{◌≡◌, length};
ghost use Rattle.matching.specs.Definitions.Rows.{Fits};
ghost use Rattle.matching.specs.Definitions.Sizes.{set_rows};

use crate::Sorts;

#[derive(Clone, Copy)]
pub struct Set<'a> {
    pub ns: &'a [u32],
    pub at: &'a [[i16; 2]],
    pub cs: &'a [u32],
    pub sorts: Sorts,
    ghost numbers: { length ns.now ≡ set_rows },
    ghost positions: { length at.now ≡ set_rows },
    ghost capacities: { length cs.now ≡ set_rows },
    ghost fits: { Fits ns.now at.now cs.now sorts },
}

impl<'a> Set<'a> {
    pub fn new(ns: &'a [u32], at: &'a [[i16; 2]], cs: &'a [u32], sorts: Sorts) -> Set<'a>
        requires { Fits ns.now at.now cs.now sorts }
        ensures { (result.ns ≡ ns.entry) × (result.at ≡ at.entry) × (result.cs ≡ cs.entry) × (result.sorts ≡ sorts) }
    {
        Set { ns, at, cs, sorts }
    }
}
