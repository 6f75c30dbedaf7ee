// What links must show row by row: their order, where their nodes stand, what they take of them.
ghost use Rattle.std.specs.Prelude.{ℕ, ◌<◌, ◌≤◌, ◌≡◌, true, length, get_or};
ghost use Rattle.matching.specs.Definitions.Pairs.{Before};
ghost use Rattle.matching.specs.Definitions.Links.{pair_of};
ghost use Rattle.matching.specs.Definitions.Rows.{link_of};
ghost use Rattle.matching.specs.Definitions.Sizes.{set_rows};
ghost use Rattle.stability.specs.Ranges.{RowOf, Ranged};
ghost use Rattle.stability.specs.Links.{Ordered, StandsOn, Stands, Within, Spent, Ready, Taken, Took};
ghost use Rattle.stability.specs.Limits.{Held};

use super::limits;
use matching::{Range, Set, Spans, pack, sizes};

// Link p comes before link q.
fn ahead(p: [u32; 4], q: [u32; 4]) -> bool
    ensures { result ≡ true → Before (pair_of (link_of p)) (pair_of (link_of q)) }
{
    matching::is_earlier(p[2], p[0], p[1], q[2], q[0], q[1])
}

// Each link comes after the one before it.
fn in_order(links: &[[u32; 4]]) -> bool
    ensures { result ≡ true → Ordered links.now (length links.now) }
{
    // By k: `Ordered` is of neighbours by number, and the loop's invariant is that clause, up to row k.
    for k in 1..links.len() {
        if !ahead(links[k - 1], links[k]) {
            return false;
        }
    }
    true
}

// Row i is one of the range's and has the number n.
fn has(ns: &[u32], r: Range, i: usize, n: u32) -> bool
    requires { r.to ≤ length ns.now }
    ensures { result ≡ true → RowOf r i × (get_or ns.now i 0 ≡ n) }
{
    (r.from..r.to).contains(&i) && ns[i] == n
}

// The nodes of link l stand in rows i and j of the ranges s, as far apart as it says.
fn stands(l: [u32; 4], i: usize, j: usize, set: Set, s: Spans) -> bool
    requires { Ranged set.ns.now set.at.now s.a × Ranged set.ns.now set.at.now s.b }
    ensures { result ≡ true → StandsOn set.entry.ns.now set.entry.at.now s (link_of l) i j }
{
    has(set.ns, s.a, i, l[0])
        && has(set.ns, s.b, j, l[1])
        && l[2] == matching::apart(set.at[i], set.at[j])
}

// The same, in rows of one sort: a master's on-curve rows stand ahead of its off-curve ones.
#[tactic(auto, using(crate::proofs::Laws::Ranges::fits_ranged))]
fn stands_alike(l: [u32; 4], i: usize, j: usize, set: Set) -> bool
    ensures { result ≡ true → Stands set.entry.ns.now set.entry.at.now set.entry.sorts (link_of l) i j }
{
    if i < set.sorts.off.a.from {
        stands(l, i, j, set, set.sorts.on)
    } else {
        stands(l, i, j, set, set.sorts.off)
    }
}

// Takes the amount m of row i, and keeps the link's key there.
// `taken` and `last` are two arrays: in one struct the links and the noting of limits took a tenth more instructions, measured on 400 nodes a master.
fn spend(m: u32, key: u64, i: usize, cs: &[u32], taken: &mut [u32], last: &mut [u64]) -> bool
    requires { (i < length cs.now) × (i < length taken.old) × (i < length last.old) × Within cs.now taken.old }
    ensures { result ≡ true → Spent cs.now m key i taken.old last.old taken.new last.new }
{
    if m == 0 || cs[i] - taken[i] < m || key < last[i] {
        return false;
    }
    taken[i] += m;
    last[i] = key;
    true
}

// Takes link l of its nodes, in the rows that p names.
fn take(l: [u32; 4], p: [u16; 2], set: Set, taken: &mut [u32], last: &mut [u64]) -> bool
    requires { Ready set.cs.now taken.old last.old }
    ensures { result ≡ true → Taken set.entry.ns.now set.entry.at.now set.entry.cs.now set.entry.sorts (link_of l) (get_or p 0 0) (get_or p 1 0)
        taken.old last.old taken.new last.new }
{
    let i = usize::from(p[0]);
    let j = usize::from(p[1]);
    if !stands_alike(l, i, j, set) {
        return false;
    }
    if !spend(l[3], pack(l[2], l[1]), i, set.cs, taken, last) {
        return false;
    }
    spend(l[3], pack(l[2], l[0]), j, set.cs, taken, last)
}

// Takes each link.
fn take_all(
    links: &[[u32; 4]],
    places: &[[u16; 2]],
    set: Set,
    taken: &mut [u32],
    last: &mut [u64],
) -> bool
    requires { (length links.now ≤ length places.now) × Ready set.cs.now taken.old last.old
        × ((i : ℕ) → get_or taken.old i 0 ≡ 0) }
    ensures { result ≡ true → Took set.entry.ns.now set.entry.at.now set.entry.cs.now set.entry.sorts links.now places.now (length links.now)
        taken.new last.new }
{
    for (k, l) in links.iter().enumerate() {
        if !take(*l, places[k], set, taken, last) {
            return false;
        }
    }
    true
}

// Links in order, at their nodes' rows and distances, within the capacities; each row gets its limit in `last`.
pub fn hold(set: Set, links: &[[u32; 4]], places: &[[u16; 2]], last: &mut [u64]) -> bool
    requires { (length links.now ≤ length places.now) × (length last.old ≡ set_rows) }
    ensures { result ≡ true → Held set.entry.ns.now set.entry.at.now set.entry.cs.now set.entry.sorts links.now (length links.now) places.now
        last.new }
{
    if !in_order(links) {
        return false;
    }
    let mut taken = [0; sizes::ROWS];
    if !take_all(links, places, set, &mut taken, last) {
        return false;
    }
    limits::note_both(set.sorts.on, set.cs, &taken, last);
    limits::note_both(set.sorts.off, set.cs, &taken, last);
    true
}
