// A run along the old links: the next link is the earlier of the next old link and of the candidates of the rows with a surplus.
ghost use Rattle.std.specs.Prelude.{◌<◌, ◌≤◌, ◌≡◌, length, IfSome};
ghost use Rattle.matching.specs.Definitions.Sizes.{set_rows, link_rows};

use crate::links::{self, New, Old};
use crate::pairs::{Order, order};
use crate::rest::Rest;
use crate::sizes;
use crate::surplus::Surplus;
use matching::Set;
use matching::sizes::{LINKS, ROWS};

// The next old link, and how many links are written.
#[derive(Clone, Copy)]
pub struct Run {
    pub old: usize,
    pub links: usize,
    ghost passed: { old ≤ link_rows },
    ghost written: { links ≤ link_rows },
}

// Where two nodes with these numbers stand in the places and have as much left as they had, they lose the link's amount; says whether.
fn repeat(link: [u32; 4], places: [u16; 2], ns: &[u32], rest: &mut Rest) -> bool
    requires { length ns.now ≡ set_rows }
{
    let i = usize::from(places[0]);
    let j = usize::from(places[1]);
    if i >= ROWS || j >= ROWS || ns[i] != link[0] || ns[j] != link[1] {
        return false;
    }
    rest.repeat(i, j, link[3])
}

// The place of the earliest candidate. Where there is none it is past every link of a join, whose distances are less; among old links of just
// that distance, which may be lent too, it stands where one of row LAST with itself would. With an Option in its place the loop over the old
// links, a comparison for each, took 3 % more instructions.
fn limit(surplus: &Surplus, set: &Set) -> Order {
    match surplus.candidate() {
        Some(p) => p.order(set),
        None => (u32::MAX, set.ns[sizes::LAST], set.ns[sizes::LAST]),
    }
}

// Copies old links as long as they are as they were and come before the limit.
fn copy_links(run: Run, limit: Order, ns: &[u32], old: Old, rest: &mut Rest, new: &mut New) -> Run
    requires { length ns.now ≡ set_rows }
{
    let mut n = run.links;
    for k in run.old..old.links.len() {
        let link = old.links[k];
        let places = old.places[k];
        if n >= LINKS || order(link) >= limit || !repeat(link, places, ns, rest) {
            return Run { old: k, links: n };
        }
        new.links[n] = link;
        new.places[n] = places;
        n += 1;
    }
    Run {
        old: old.links.len(),
        links: n,
    }
}

// The old links ahead that are as they were, and then the earlier of the next one and of the earliest candidate.
fn turn(
    run: Run,
    set: &Set,
    old: Old,
    rest: &mut Rest,
    surplus: &mut Surplus,
    new: &mut New,
) -> Option<Run> {
    let limit = limit(surplus, set);
    let r = copy_links(run, limit, set.ns, old, rest, new);
    let k = r.old;
    if k < old.links.len() && order(old.links[k]) < limit {
        let r = Run {
            old: k + 1,
            links: r.links,
        };
        return links::take_old(r, old.links[k], old.places[k], set, rest, surplus, new);
    }
    links::take_candidate(r, set, rest, surplus, new)
}

// All links; gives their number, or nothing where the run costs too much.
pub fn all(
    set: &Set,
    old: Old,
    rest: &mut Rest,
    surplus: &mut Surplus,
    new: &mut New,
) -> Option<usize>
    ensures { IfSome result (λ n. n ≤ link_rows) }
{
    let mut r = Run { old: 0, links: 0 };
    for _ in 0..sizes::TURNS {
        r = turn(r, set, old, rest, surplus, new)?;
        if surplus.cost > sizes::ADVANCE + sizes::SHARE * r.old {
            return None;
        }
        if r.old >= old.links.len() && surplus.rows == 0 {
            return Some(r.links);
        }
    }
    None
}
