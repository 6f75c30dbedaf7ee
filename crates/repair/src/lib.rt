// The links after an edit, made from those before it. Nothing is promised of them: who uses them checks them.
#![tactic(auto)]

mod links;
mod nearest;
mod pairs;
mod rest;
mod rows;
mod run;
mod sizes;
mod surplus;

ghost use Rattle.std.specs.Prelude.{◌<◌, ◌≤◌, length, IfSome};
ghost use Rattle.matching.specs.Definitions.Sizes.{link_rows, set_rows};
ghost use Rattle.repair.specs.Repair.{Links};

use links::{New, Old};
use matching::sizes::{BLOCKS, ROWS};
use matching::{Master, Set};
use pairs::{Choice, Pair};
use rest::{Block, Left, Rest};
use rows::{Rows, Sort};
use surplus::Surplus;

// The row of the edited node, which is of either sort.
fn edited(number: u32, master: Master, set: &Set) -> Option<usize>
    ensures { IfSome result (λ k. k < set_rows) }
{
    for sort in [Sort::On, Sort::Off] {
        if let Some(k) = Rows::new(set, sort, master).find(number) {
            return Some(k);
        }
    }
    None
}

// The run begins: the row of the edited node, if it is there, had nothing left.
// Set, rest and surplus go apart, here and below: a search for the surplus reads the rest, and the set is only lent.
fn start(
    number: u32,
    master: Master,
    set: &Set,
    rest: &mut Rest,
    surplus: &mut Surplus,
) -> Option<()> {
    if let Some(k) = edited(number, master, set) {
        rest.forget(k);
        return surplus.enter(k, 0, set, rest);
    }
    Some(())
}

// The new links and their places from the old ones, of a set in which the node `number` of a master was edited; gives their number,
// or nothing where that would cost as much as a join.
pub fn repair(
    set: Set,
    number: u32,
    master: Master,
    old: &[[u32; 4]],
    from: &[[u16; 2]],
    new: &mut [[u32; 4]],
    to: &mut [[u16; 2]],
) -> Option<usize>
    requires { (length old.now ≤ length from.now) × (length old.now ≤ link_rows) × Links new.old to.old 0 }
    ensures { (IfSome result (λ n. n ≤ link_rows)) × Links new.new to.new 0 }
{
    let mut rest = Rest {
        rows: [Left { had: 0, has: 0 }; ROWS],
        blocks: [Block { open: 0, least: 0 }; BLOCKS],
        boxes: [[0i16; 4]; BLOCKS],
    };
    rest.begin(&set);
    let mut surplus = Surplus {
        choices: [Choice {
            candidate: Pair::new(0, 0, 0),
            runner_up: None,
        }; sizes::SURPLUS],
        rows: 0,
        first: 0,
        cost: 0,
    };
    start(number, master, &set, &mut rest, &mut surplus)?;
    let mut new = New {
        links: new.as_mut_array()?,
        places: to.as_mut_array()?,
    };
    let old = Old {
        links: old,
        places: from,
    };
    run::all(&set, old, &mut rest, &mut surplus, &mut new)
}
