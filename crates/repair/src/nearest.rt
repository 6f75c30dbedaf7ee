// The two rows nearest to a row among the other master's that have something left.
ghost use Rattle.std.specs.Prelude.{◌+◌, ◌<◌, ◌≤◌};
ghost use Rattle.matching.specs.Definitions.Columns.{Inside};
ghost use Rattle.matching.specs.Definitions.Rows.{across, upward};
ghost use Rattle.matching.specs.Definitions.Sizes.{set_rows, set_blocks};

use crate::pairs::{Choice, Pair};
use crate::rest::Rest;
use crate::rows::{Rows, sort_of};
use matching::sizes::{BLOCK, HALF, ROWS};
use matching::{Master, Set};

// A row, and its distance and number as one key: the lesser key comes first. No row has the greatest key, which stands for none:
// an Option's None is less than any other, so that the two least keys would take a test more in each comparison.
#[derive(Clone, Copy)]
struct Near {
    key: u64,
    row: usize,
    ghost in_set: { row < set_rows },
}

impl Near {
    // The pair of row t and this one, if there is one.
    fn pair(self, t: usize) -> Option<Pair>
        requires { t < set_rows }
    {
        if self.key == u64::MAX {
            return None;
        }
        Some(Pair::new(matching::distance(self.key), t, self.row))
    }
}

// The nearest row and the next nearest.
#[derive(Clone, Copy)]
struct Two {
    first: Near,
    second: Near,
}

impl Two {
    // No row yet.
    fn none() -> Two {
        let n = Near {
            key: u64::MAX,
            row: 0,
        };
        Two {
            first: n,
            second: n,
        }
    }

    // The pairs of row t and these.
    fn choice(self, t: usize) -> Option<Choice>
        requires { t < set_rows }
    {
        Some(Choice {
            candidate: self.first.pair(t)?,
            runner_up: self.second.pair(t),
        })
    }

    // The two nearest of these and n.
    fn closer(self, n: Near) -> Two {
        if n.key >= self.second.key {
            return self;
        }
        if n.key < self.first.key {
            return Two {
                first: n,
                second: self.first,
            };
        }
        Two {
            first: self.first,
            second: n,
        }
    }
}

// The two nearest, and how many blocks were looked through for them: a first one, and then no more than there are.
#[derive(Clone, Copy)]
struct Found {
    two: Two,
    scans: usize,
    ghost scanned: { scans ≤ set_blocks + 1 },
}

// A search among some rows for the two nearest to a position.
#[derive(Clone, Copy)]
struct Search<'a> {
    p: [i16; 2],
    rows: Rows<'a>,
    ghost inside: { Inside (across p) (upward p) },
}

impl<'a> Search<'a> {
    // The two nearest of s and row k, if that is one of the rows.
    fn compare(&self, k: usize, s: Two) -> Two {
        if !self.rows.contains(k) {
            return s;
        }
        s.closer(Near {
            key: matching::pack(matching::apart(self.p, self.rows.at[k]), self.rows.ns[k]),
            row: k,
        })
    }

    // The two nearest of s and the rows of block b that have something left. A `while`, since the bits of a word have no iterator.
    fn scan(&self, b: usize, s: Two, rest: &Rest) -> Two
        requires { b < set_blocks }
    {
        let mut best = s;
        let mut m = rest.blocks[b].open;
        while m != 0 {
            best = self.compare(b * BLOCK + (m.trailing_zeros() as usize), best);
            m &= m - 1;
        }
        best
    }

    // The two nearest of those found and of block b, unless that is the block looked through first, or too far away.
    fn visit(&self, b: usize, start: usize, f: Found, rest: &Rest) -> Found
        requires { (b < set_blocks) × (f.scans ≤ set_blocks) }
        ensures { result.scans ≤ f.scans + 1 }
    {
        if b == start || !rest.reaches(self.p, b, f.two.second.key) {
            return f;
        }
        Found {
            two: self.scan(b, f.two, rest),
            scans: f.scans + 1,
        }
    }

    // The two nearest of the rows that have something left. The block of row `near` comes first, so that far blocks are passed over.
    fn run(&self, near: usize, rest: &Rest) -> Found {
        let start = near % ROWS / BLOCK;
        let mut f = Found {
            two: self.scan(start, Two::none(), rest),
            scans: 1,
        };
        for b in self.rows.from / BLOCK..self.rows.to.div_ceil(BLOCK) {
            f = self.visit(b, start, f, rest);
        }
        f
    }
}

// The search for the partners of row t: among the other master's rows of its sort, if it is one of the sort's rows.
fn search_for<'a>(t: usize, set: &Set<'a>) -> Option<Search<'a>> {
    let sort = sort_of(t, set);
    let (own, other) = if t < HALF {
        (Master::A, Master::B)
    } else {
        (Master::B, Master::A)
    };
    let rows = Rows::new(set, sort, own);
    if !rows.contains(t) {
        return None;
    }
    Some(Search {
        p: rows.at[t],
        rows: Rows::new(set, sort, other),
    })
}

// The pairs of row t and the two nearest of the other master's rows of its sort that have something left, and how many blocks were
// looked through; that of row `near` is the first.
pub fn partners(t: usize, near: usize, set: &Set, rest: &Rest) -> (Option<Choice>, usize)
    requires { t < set_rows }
    ensures { result.1 ≤ set_blocks + 1 }
{
    let Some(search) = search_for(t, set) else {
        return (None, 0);
    };
    let f = search.run(near, rest);
    (f.two.choice(t), f.scans)
}
