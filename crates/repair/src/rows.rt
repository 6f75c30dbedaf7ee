// A master's rows of a sort, with the numbers and positions of their set: they begin with a block, and each has a position inside.
ghost use Rattle.std.specs.Prelude.{ℕ, ◌*◌, ◌/◌, ◌<◌, ◌≤◌, ◌≡◌, length, true, IfSome};
ghost use Rattle.matching.specs.Definitions.Columns.{Inside};
ghost use Rattle.matching.specs.Definitions.Rows.{Fit, range, x_at, y_at};
ghost use Rattle.matching.specs.Definitions.Sizes.{set_rows, block_rows};

use matching::sizes::HALF;
use matching::{Master, Range, Set, Spans};

// On-curve nodes pair with on-curve ones, off-curve with off-curve.
#[derive(Clone, Copy)]
pub enum Sort {
    On,
    Off,
}

#[derive(Clone, Copy)]
pub struct Rows<'a> {
    pub ns: &'a [u32],
    pub at: &'a [[i16; 2]],
    pub from: usize,
    pub to: usize,
    ghost numbers: { length ns.now ≡ set_rows },
    ghost positions: { length at.now ≡ set_rows },
    ghost order: { from ≤ to },
    ghost end: { to ≤ set_rows },
    ghost begins: { from ≡ from / block_rows * block_rows },
    ghost inside: { (k : ℕ) → from ≤ k → k < to → Inside (x_at at.now k) (y_at at.now k) },
}

impl<'a> Rows<'a> {
    pub fn new(set: &Set<'a>, sort: Sort, master: Master) -> Rows<'a> {
        let r = range(spans(set, sort), master);
        Rows {
            ns: set.ns,
            at: set.at,
            from: r.from,
            to: r.to,
        }
    }

    // Whether row k is one of them.
    pub fn contains(&self, k: usize) -> bool
        ensures { result ≡ true → (self.now.from ≤ k) × (k < self.now.to) }
    {
        (self.from..self.to).contains(&k)
    }

    // The row with this number.
    pub fn find(&self, number: u32) -> Option<usize>
        ensures { IfSome result (λ k. k < set_rows) }
    {
        let rows = &self.ns[self.from..self.to];
        let k = rows.iter().position(|n| *n == number)?;
        Some(self.from + k)
    }
}

// The rows of a sort, of both masters,
fn spans(set: &Set, sort: Sort) -> Spans
    ensures { Fit set.now.ns.now set.now.at.now set.now.cs.now result }
{
    match sort {
        Sort::On => set.sorts.on,
        Sort::Off => set.sorts.off,
    }
}

// and of one.
fn range(s: Spans, master: Master) -> Range
    ensures { result ≡ range s master }
{
    match master {
        Master::A => s.a,
        Master::B => s.b,
    }
}

// The sort of row k: a master's off-curve rows stand after its on-curve ones.
pub fn sort_of(k: usize, set: &Set) -> Sort {
    let off = set.sorts.off;
    let first = if k < HALF { off.a.from } else { off.b.from };
    if k < first { Sort::On } else { Sort::Off }
}
