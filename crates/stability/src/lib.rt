// Whether links are the join of two masters, told without joining them anew: in one pass over the links and one over the pairs of each sort.
// Limits by which no pair blocks are lent, and only pairs that may block by the links' own limits are looked at.
#![tactic(auto)]

mod blocking;
mod blocks;
mod bounded;
mod change;
mod lanes;
mod later;
mod limits;
mod links;
mod passes;
mod rows;
mod sizes;
mod spread;

ghost use Rattle.std.specs.Prelude.{ℕ, ◌<◌, ◌≤◌, ◌≡◌, true, length, get_or};
ghost use Rattle.matching.specs.declared.Master.TheVariants.{A as master_a, B as master_b};
ghost use Rattle.matching.specs.Definitions.Join.{join};
ghost use Rattle.matching.specs.Definitions.Rows.{nodes_of, links_in};
ghost use Rattle.matching.specs.Definitions.Sizes.{number_range};
ghost use Rattle.stability.specs.Barred.{Barred};

use matching::Set;

// A column's numbers fit, as the type of its rows says: the fact, and no code.
fn numbers_fit(ns: &[u32])
    ensures { (k : ℕ) → get_or ns.now k 0 < number_range }
{}

// True only where the links are the join of the masters' nodes; `places` has the rows where the links' nodes are said to stand.
// The limits that are lent become those of the links where these are the join.
// Links and places are lent apart, here and in `links`: a caller has one place or more for each link, in a buffer of its own.
pub fn verify(set: Set, links: &[[u32; 4]], places: &[[u16; 2]], limits: &mut [u64]) -> bool
    requires { (length links.now ≤ length places.now) × Barred set.ns.now set.at.now set.sorts limits.old }
    ensures { (result ≡ true → links_in links.now (length links.now)
        ≡ join (nodes_of set.entry.sorts set.entry.ns.now set.entry.at.now set.entry.cs.now master_a)
        (nodes_of set.entry.sorts set.entry.ns.now set.entry.at.now set.entry.cs.now master_b))
        × Barred set.entry.ns.now set.entry.at.now set.entry.sorts limits.new }
{
    numbers_fit(set.ns);
    let mut next = [0; matching::sizes::ROWS];
    if !links::hold(set, links, places, &mut next) {
        return false;
    }
    if passes::any_alike(set.ns, set.at, limits, &next, set.sorts) {
        return false;
    }
    limits::copy_both(set.sorts.on, &next, limits);
    limits::copy_both(set.sorts.off, &next, limits);
    true
}
