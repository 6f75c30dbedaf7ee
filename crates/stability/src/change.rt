// Two ranges of a set, and the limits of all its rows before and after a change.
ghost use Rattle.std.specs.Prelude.{◌≡◌, length};
ghost use Rattle.matching.specs.Definitions.Sizes.{set_rows};
ghost use Rattle.stability.specs.Ranges.{Ranged};

use matching::Range;

#[derive(Clone, Copy)]
pub struct Change<'a> {
    pub ns: &'a [u32],
    pub at: &'a [[i16; 2]],
    pub old: &'a [u64],
    pub new: &'a [u64],
    pub p: Range,
    pub q: Range,
    ghost before: { length old.now ≡ set_rows },
    ghost after: { length new.now ≡ set_rows },
    ghost first: { Ranged ns.now at.now p },
    ghost second: { Ranged ns.now at.now q },
}

impl<'a> Change<'a> {
    // The same change, of two other ranges.
    pub fn of(self, p: Range, q: Range) -> Change<'a>
        requires { Ranged self.ns.now self.at.now p × Ranged self.ns.now self.at.now q }
        ensures columns { (result.ns ≡ self.entry.ns) × (result.at ≡ self.entry.at) }
        ensures limits { (result.old ≡ self.entry.old) × (result.new ≡ self.entry.new) }
        ensures ranges { (result.p ≡ p) × (result.q ≡ q) }
    {
        Change {
            ns: self.ns,
            at: self.at,
            old: self.old,
            new: self.new,
            p,
            q,
        }
    }
}
