// The rows with a surplus: they have something left, and had nothing left at the same place of the links before the edit.
ghost use Rattle.std.specs.Prelude.{◌+◌, ◌<◌, ◌≤◌};
ghost use Rattle.matching.specs.Definitions.Sizes.{set_rows, set_blocks};
ghost use Rattle.repair.specs.Sizes.{surplus_rows, cost_most};

use crate::pairs::{Choice, Pair};
use crate::rest::Rest;
use crate::{nearest, sizes};
use matching::Set;

// What the rows would link to, how many they are, the place of the earliest candidate, and what the searches have cost.
#[derive(Drop)]
pub struct Surplus {
    pub choices: [Choice; sizes::SURPLUS],
    pub rows: usize,
    pub first: usize,
    pub cost: usize,
    ghost most: { rows ≤ surplus_rows },
    ghost kept: { first < surplus_rows },
}

impl Surplus {
    // The earliest candidate.
    pub fn candidate(&self) -> Option<Pair> {
        if self.rows == 0 {
            return None;
        }
        Some(self.choices[self.first].candidate)
    }

    // The run costs something more.
    fn charge(&mut self, cost: usize)
        requires { cost ≤ cost_most }
    {
        self.cost = self.cost.saturating_add(cost);
    }

    // A search costs a unit, and two for each block that was looked through.
    fn charge_search(&mut self, scans: usize)
        requires { scans ≤ set_blocks + 1 }
    {
        self.charge(2 * scans + 1);
    }

    // Of the places e and i the one with the earlier candidate.
    fn earlier(&self, e: usize, i: usize, set: &Set) -> usize
        requires { (e < surplus_rows) × (i < surplus_rows) }
        ensures { result < surplus_rows }
    {
        if self.choices[i].candidate.order(set) < self.choices[e].candidate.order(set) {
            return i;
        }
        e
    }

    // The candidates have changed: the earliest is looked for.
    fn find_earliest(&mut self, set: &Set) {
        self.charge(self.rows / sizes::LOOK + 1);
        let mut e = 0;
        // By `earlier`, as `enter` compares two places too: `min_by_key` would make the order a second time.
        for i in 1..self.rows {
            e = self.earlier(e, i, set);
        }
        self.first = e;
    }

    // Row t has a surplus; its search begins with the block of row `near`. Nothing where there is no room for it.
    pub fn enter(&mut self, t: usize, near: usize, set: &Set, rest: &Rest) -> Option<()>
        requires { t < set_rows }
    {
        let n = self.rows;
        if n >= sizes::SURPLUS {
            return None;
        }
        let (choice, scans) = nearest::partners(t, near, set, rest);
        self.charge_search(scans);
        let Some(choice) = choice else {
            return Some(());
        };
        self.choices[n] = choice;
        self.rows = n + 1;
        self.first = if n == 0 {
            0
        } else {
            self.earlier(self.first, n, set)
        };
        Some(())
    }

    // The row of the earliest candidate has no surplus any more: the last one takes its place.
    fn remove(&mut self, set: &Set) {
        let Some(n) = self.rows.checked_sub(1) else {
            return;
        };
        self.choices[self.first] = self.choices[n];
        self.rows = n;
        self.find_earliest(set);
    }

    // The row whose candidate p was the earliest looks for another candidate and another runner-up.
    fn replace(&mut self, p: Pair, set: &Set, rest: &Rest) {
        let (choice, scans) = nearest::partners(p.owner(), p.partner(), set, rest);
        self.charge_search(scans);
        let Some(choice) = choice else {
            return self.remove(set);
        };
        self.choices[self.first] = choice;
        self.find_earliest(set);
    }

    // The earliest candidate p is taken, or its rows have nothing left: the runner-up follows it, or the row looks for another, or has no surplus any more.
    pub fn advance(&mut self, p: Pair, set: &Set, rest: &Rest) {
        if rest.rows[p.owner()].has == 0 {
            return self.remove(set);
        }
        if let Some(q) = self.choices[self.first].runner_up {
            if rest.rows[q.partner()].has != 0 {
                self.choices[self.first] = Choice {
                    candidate: q,
                    runner_up: None,
                };
                return self.find_earliest(set);
            }
        }
        self.replace(p, set, rest);
    }
}
