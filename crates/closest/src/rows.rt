// The rows of one sort, of both masters, lent: their numbers and positions, and which are whose.
ghost use Rattle.std.specs.Prelude.{◌≡◌, ℕ, List, length};
ghost use Rattle.matching.specs.Definitions.Sizes.{set_rows};
ghost use Rattle.matching.specs.Definitions.Rows.{Fit};

use matching::Spans;

// `repair` and `stability` have Rows of their own: each lends what its search reads, with the facts that it needs.
#[derive(Clone, Copy)]
pub struct Rows<'a> {
    pub ns: &'a [u32],
    pub at: &'a [[i16; 2]],
    pub spans: Spans,
    ghost numbers: { length ns.now ≡ set_rows },
    ghost positions: { length at.now ≡ set_rows },
    // They fit, whatever they have left.
    ghost fit: { (left : List ℕ) → length left ≡ set_rows → Fit ns.now at.now left spans },
}
