// The old links, the new ones that are written, and what they take of their rows.
ghost use Rattle.std.specs.Prelude.{◌<◌, ◌≤◌, length, IfSome};
ghost use Rattle.matching.specs.Definitions.Sizes.{set_rows, link_rows};

use crate::pairs::Pair;
use crate::rest::Rest;
use crate::rows::{Rows, sort_of};
use crate::run::Run;
use crate::surplus::Surplus;
use matching::sizes::LINKS;
use matching::{Master, Set};

// The old links, and where their nodes are said to stand.
#[derive(Clone, Copy)]
pub struct Old<'a> {
    pub links: &'a [[u32; 4]],
    pub places: &'a [[u16; 2]],
    ghost most: { length links.now ≤ link_rows },
    ghost placed: { length links.now ≤ length places.now },
}

// Room for the new ones, and for their rows.
#[derive(Drop)]
pub struct New<'a> {
    pub links: &'a mut [[u32; 4]; LINKS],
    pub places: &'a mut [[u16; 2]; LINKS],
}

// Writes the link of A's row i and B's row j, at distance d with amount m, unless that is nothing.
// Rows and blocks are plain numbers with their bounds in clauses: a type for them would be built and opened at every use.
fn write(run: Run, i: usize, j: usize, d: u32, m: u32, set: &Set, new: &mut New) -> Option<Run>
    requires { (i < set_rows) × (j < set_rows) }
{
    if m == 0 {
        return Some(run);
    }
    let n = run.links;
    if n >= LINKS {
        return None;
    }
    new.links[n] = [set.ns[i], set.ns[j], d, m];
    new.places[n] = [i as u16, j as u16];
    Some(Run {
        old: run.old,
        links: n + 1,
    })
}

// The row where a master's node with this number is said to stand, if it does.
fn find(place: u16, number: u32, master: Master, set: &Set) -> Option<usize>
    ensures { IfSome result (λ k. k < set_rows) }
{
    let k = usize::from(place);
    let rows = Rows::new(set, sort_of(k, set), master);
    if !rows.contains(k) || rows.ns[k] != number {
        return None;
    }
    Some(k)
}

// The old link takes m of what row k had left; `near` is where its other node is said to stand.
fn release(
    k: usize,
    m: u32,
    near: u16,
    set: &Set,
    rest: &mut Rest,
    surplus: &mut Surplus,
) -> Option<()>
    requires { k < set_rows }
{
    if rest.release(k, m) {
        return surplus.enter(k, usize::from(near), set, rest);
    }
    Some(())
}

// An old link whose nodes are said to stand in two places: it is taken with what they have left, and was taken with its amount.
pub fn take_old(
    run: Run,
    link: [u32; 4],
    places: [u16; 2],
    set: &Set,
    rest: &mut Rest,
    surplus: &mut Surplus,
    new: &mut New,
) -> Option<Run> {
    let a = find(places[0], link[0], Master::A, set);
    let b = find(places[1], link[1], Master::B, set);
    let mut run = run;
    if let (Some(i), Some(j)) = (a, b) {
        let m = rest.retake(i, j);
        run = write(run, i, j, link[2], m, set, new)?;
    }
    if let Some(i) = a {
        release(i, link[3], places[1], set, rest, surplus)?;
    }
    if let Some(j) = b {
        release(j, link[3], places[0], set, rest, surplus)?;
    }
    Some(run)
}

// The earliest candidate, if there is one, is taken with what its rows have left.
pub fn take_candidate(
    run: Run,
    set: &Set,
    rest: &mut Rest,
    surplus: &mut Surplus,
    new: &mut New,
) -> Option<Run> {
    let Some(p) = surplus.candidate() else {
        return Some(run);
    };
    let m = rest.take(p.owner(), p.partner());
    let run = write(run, p.light(), p.bold(), p.distance, m, set, new)?;
    surplus.advance(p, set, rest);
    Some(run)
}
