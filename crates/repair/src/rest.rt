// For each row what it had left before the edit, at the same place of the links, and what it has left now; and for each block
// of rows a bit for each of them that has something left, their least number, and the box around them.
ghost use Rattle.std.specs.Prelude.{◌<◌};
ghost use Rattle.matching.specs.Definitions.Columns.{Inside};
ghost use Rattle.matching.specs.Definitions.Rows.{across, upward};
ghost use Rattle.matching.specs.Definitions.Sizes.{set_rows, set_blocks};
ghost use Rattle.repair.specs.State.{Boxed};

use crate::rows::{Rows, Sort};
use matching::sizes::{BLOCK, BLOCKS, ROWS};
use matching::{Master, Set};

// What a row had left, and has left.
#[derive(Clone, Copy)]
pub struct Left {
    pub had: u32,
    pub has: u32,
}

// The bits of a block's rows, and their least number.
#[derive(Clone, Copy)]
pub struct Block {
    pub open: u32,
    pub least: u32,
}

#[derive(Drop)]
pub struct Rest {
    pub rows: [Left; ROWS],
    pub blocks: [Block; BLOCKS],
    pub boxes: [[i16; 4]; BLOCKS],
    ghost boxed: { Boxed boxes },
}

impl Rest {
    // So it is before the first link: all rows have their capacities left.
    pub fn begin(&mut self, set: &Set) {
        for sort in [Sort::On, Sort::Off] {
            self.begin_rows(set, Rows::new(set, sort, Master::A));
            self.begin_rows(set, Rows::new(set, sort, Master::B));
        }
    }

    fn begin_rows(&mut self, set: &Set, rows: Rows) {
        self.survey(rows);
        let capacities = &set.cs[rows.from..rows.to];
        for (row, c) in self.rows[rows.from..rows.to].iter_mut().zip(capacities) {
            *row = Left { had: *c, has: *c };
        }
    }

    // The blocks of some rows, which all have something left.
    fn survey(&mut self, rows: Rows) {
        for b in rows.from / BLOCK..rows.to.div_ceil(BLOCK) {
            let first = b * BLOCK;
            let end = rows.to.min(first + BLOCK);
            self.blocks[b] = Block {
                open: u32::MAX >> (first + BLOCK - end),
                least: least(&rows.ns[first..end]),
            };
            self.boxes[b] = boxes::around(rows.at, first, end);
        }
    }

    // Row k has these left: where it has nothing, its bit is cleared. A jump would often be predicted wrongly.
    fn put(&mut self, k: usize, had: u32, has: u32)
        requires { k < set_rows }
    {
        self.rows[k] = Left { had, has };
        self.blocks[k / BLOCK].open &= !(u32::from(has == 0) << (k % BLOCK));
    }

    // Row k loses m of what it has left.
    fn spend(&mut self, k: usize, m: u32)
        requires { k < set_rows }
    {
        let x = self.rows[k];
        self.put(k, x.had, x.has.saturating_sub(m));
    }

    // Row k, which has as much left as it had, loses m of both.
    fn lose(&mut self, k: usize, m: u32)
        requires { k < set_rows }
    {
        let x = self.rows[k].has.saturating_sub(m);
        self.put(k, x, x);
    }

    // Takes of two rows the lesser of what they have left, and gives it.
    pub fn take(&mut self, i: usize, j: usize) -> u32
        requires { (i < set_rows) × (j < set_rows) }
    {
        let m = self.rows[i].has.min(self.rows[j].has);
        self.spend(i, m);
        self.spend(j, m);
        m
    }

    // The same, unless one of them had nothing left: then the link was the edited node's.
    pub fn retake(&mut self, i: usize, j: usize) -> u32
        requires { (i < set_rows) × (j < set_rows) }
    {
        if self.rows[i].had == 0 || self.rows[j].had == 0 {
            return 0;
        }
        self.take(i, j)
    }

    // Whether row k has as much left as it had, and m or more.
    fn is_same(&self, k: usize, m: u32) -> bool
        requires { k < set_rows }
    {
        let x = self.rows[k];
        x.had == x.has && m <= x.has
    }

    // Where two rows have as much left as they had, both lose m; says whether.
    pub fn repeat(&mut self, i: usize, j: usize, m: u32) -> bool
        requires { (i < set_rows) × (j < set_rows) }
    {
        if !self.is_same(i, m) || !self.is_same(j, m) {
            return false;
        }
        self.lose(i, m);
        self.lose(j, m);
        true
    }

    // Row k loses m of what it had left; says whether it has a surplus from now on: it has something left and had nothing.
    pub fn release(&mut self, k: usize, m: u32) -> bool
        requires { k < set_rows }
    {
        let x = self.rows[k];
        self.rows[k].had = x.had.saturating_sub(m);
        x.had != 0 && x.had <= m && x.has != 0
    }

    // The edited node's row had nothing left.
    pub fn forget(&mut self, k: usize)
        requires { k < set_rows }
    {
        self.rows[k].had = 0;
    }

    // Whether a row of block b that has something left can have a lesser key than `key`, as seen from p.
    pub fn reaches(&self, p: [i16; 2], b: usize, key: u64) -> bool
        requires { Inside (across p) (upward p) × (b < set_blocks) }
    {
        let block = self.blocks[b];
        block.open != 0 && matching::pack(boxes::clearance(p, self.boxes[b]), block.least) < key
    }
}

// The least of some numbers.
fn least(ns: &[u32]) -> u32 {
    ns.iter().fold(u32::MAX, |least, n| least.min(*n))
}
