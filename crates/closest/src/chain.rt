// The chain of nearest neighbours: each row on it has the next as its nearest; where two rows are each other's, their pair is taken.
ghost use Rattle.std.specs.Prelude.{◌≡◌, ◌+◌, ◌-◌, ◌<◌, ◌≤◌, ℕ, length, get_or, set};
ghost use Rattle.matching.specs.Definitions.Columns.{Inside};
ghost use Rattle.matching.specs.Definitions.Sizes.{set_rows, set_blocks};
ghost use Rattle.matching.specs.Definitions.Rows.{across, upward};
ghost use Rattle.closest.specs.Rows.{lent};
ghost use Rattle.closest.specs.Blocks.{Aligned};
ghost use Rattle.closest.specs.Nearest.{seeded};
ghost use Rattle.closest.specs.Chain.{sides, Begun, Seeding, Seeded, Ready, Decided, Trimmed};

use crate::blocks::Blocks;
use crate::live::Lists;
use crate::nearest::{self, Near};
use crate::rows::Rows;
use crate::sizes::CHAIN;
use matching::Range;
use matching::sizes::{BLOCK, HALF};

// A pair of rows that is taken: A's, B's, and how far they are apart.
#[derive(Clone, Copy)]
pub struct Pick {
    pub a: usize,
    pub b: usize,
    pub distance: u32,
}

// What to do next: push a row, or take a pair.
#[derive(Clone, Copy)]
pub enum Move {
    Push(usize),
    Take(Pick),
}

// The rows on the chain, from the bottom up to its depth.
#[derive(Drop)]
pub struct Chain {
    pub rows: [u16; CHAIN],
    pub depth: usize,
}

// The pair of rows t and w, A's first.
fn sided(t: usize, w: usize, distance: u32) -> Pick
    ensures { result ≡ sides t w distance }
{
    // By HALF, as `sides` has it of any two rows: the lesser of two is A's only where they are of different masters.
    let (a, b) = if t < HALF { (t, w) } else { (w, t) };
    Pick { a, b, distance }
}

// An empty chain begins with the first row of a range that is listed, if there is one.
fn begin(r: Range, blocks: &Blocks) -> Option<usize>
    requires { Aligned r × (length blocks.now.lists.listed ≡ set_rows) × (length blocks.now.ends ≡ set_blocks) }
    ensures { Begun blocks.now.lists.listed blocks.now.ends r result }
{
    for b in r.from / BLOCK..r.to.div_ceil(BLOCK) {
        let first = b * BLOCK;
        if first < blocks.ends[b][0] as usize {
            return Some(blocks.lists.listed[first][1] as usize);
        }
    }
    None
}

impl Chain {
    // The row at height h.
    fn row(&self, h: usize) -> usize
        requires { h < length self.now.rows }
        ensures { result ≡ get_or self.now.rows h 0 }
    {
        usize::from(self.rows[h])
    }

    // The nearest to p, the top's position, before the search: the row below the top, if there is one.
    fn below(&self, p: [i16; 2], lists: &Lists) -> Option<Near>
        requires { Inside (across p) (upward p) × Seeding self.now.rows lists.now self.now.depth }
        ensures { Seeded p self.now.rows lists.now self.now.depth (seeded result) }
    {
        if self.depth < 2 {
            return None;
        }
        let at = usize::from(lists.spot[self.row(self.depth - 2)]);
        Some(Near {
            key: nearest::measure(p, at, lists),
            at,
        })
    }

    // The top's nearest row is pushed, unless it is the row below it: then their pair is taken. (`left` serves the contract alone.)
    pub fn decide(&self, rows: &Rows, left: &[u32], blocks: &Blocks) -> Option<Move>
        requires { Ready (lent rows.now) left.now blocks.now.lists blocks.now.ends blocks.now.boxes self.now.rows self.now.depth }
        ensures { Decided (lent rows.now) left.now self.now.rows self.now.depth result }
    {
        let depth = self.depth;
        if depth == 0 {
            let first = begin(rows.spans.a, blocks)?;
            return Some(Move::Push(first));
        }
        let t = self.row(depth - 1);
        let seed = self.below(rows.at[t], &blocks.lists);
        let near = nearest::partner(t, seed, rows, blocks)?;
        let row = blocks.lists.listed[near.at][1] as usize;
        if depth > 1 {
            if self.row(depth - 2) == row {
                return Some(Move::Take(sided(t, row, matching::distance(near.key))));
            }
        }
        Some(Move::Push(row))
    }

    // Row w becomes the top.
    // A row is a plain number with its bound in the clause: a type for it would be built and opened at every use.
    pub fn push(&mut self, w: usize)
        requires { (self.old.depth < length self.old.rows) × (length self.old.rows ≤ 2000) × (w < set_rows) }
        ensures { (self.new.rows ≡ set self.old.rows self.old.depth w) × (self.new.depth ≡ self.old.depth + 1) }
    {
        self.rows[self.depth] = w as u16;
        self.depth += 1;
    }

    // What the row at height h has left.
    fn left_at(&self, h: usize, left: &[u32]) -> u32
        requires { (h < length self.now.rows) × (get_or self.now.rows h 0 < length left.now) }
        ensures { result ≡ get_or left.now (get_or self.now.rows h 0) 0 }
    {
        left[self.row(h)]
    }

    // Pops the top, and the row below it where that is used up. Where at most one row would stay, a top that has something left begins a new chain:
    // it is searched from next, not a row that may be far away.
    pub fn trim(&mut self, left: &[u32])
        requires { (2 ≤ self.old.depth) × (self.old.depth ≤ length self.old.rows)
            × ((h : ℕ) → h < self.old.depth → get_or self.old.rows h 0 < length left.now) }
        ensures { Trimmed left.now self.old.rows self.old.depth self.new.rows self.new.depth }
    {
        let depth = self.depth;
        if self.left_at(depth - 2, left) > 0 {
            self.depth = depth - 1;
        } else if depth <= 3 && self.left_at(depth - 1, left) > 0 {
            self.rows[0] = self.rows[depth - 1];
            self.depth = 1;
        } else {
            self.depth = depth - 2;
        }
    }
}
