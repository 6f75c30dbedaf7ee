// The join of two masters, by a chain of nearest neighbours.
#![tactic(auto)]

mod blocks;
mod chain;
mod live;
mod nearest;
mod order;
mod picks;
mod rows;
mod sizes;

ghost use Rattle.std.specs.Prelude.{◌≡◌, length};
ghost use Rattle.matching.specs.declared.Master.TheVariants.{A as master_a, B as master_b};
ghost use Rattle.matching.specs.Definitions.Sizes.{set_rows, link_rows};
ghost use Rattle.matching.specs.Definitions.Rows.{nodes_of, Joined};
ghost use Rattle.closest.specs.Rows.{lent};
ghost use Rattle.closest.specs.Chain.{Room, Picked};

use matching::Set;
use rows::Rows;

// Picks the links of one sort's rows and writes them after the first n; gives the number of links then.
fn pick_sort(rows: &Rows, cs: &[u32], links: &mut [[u32; 4]], n: usize) -> usize
    requires { (length cs.now ≡ set_rows) × Room (lent rows.now) cs.now links.old n }
    ensures { Picked (lent rows.now) cs.now links.old n links.new result }
{
    let s = rows.spans;
    if s.a.from == s.a.to {
        return n;
    }
    if s.b.from == s.b.to {
        return n;
    }
    let mut left = [0u32; matching::sizes::ROWS];
    left.copy_from_slice(cs);
    picks::pick(rows, &mut left, links, n)
}

// Writes the links of the join in pair order and gives their number.
pub fn join(set: Set, links: &mut [[u32; 4]]) -> usize
    requires { length links.old ≡ link_rows }
    ensures { Joined (nodes_of set.entry.sorts set.entry.ns.now set.entry.at.now set.entry.cs.now master_a)
        (nodes_of set.entry.sorts set.entry.ns.now set.entry.at.now set.entry.cs.now master_b) links.new result }
{
    let (ns, at) = (set.ns, set.at);
    let on = Rows {
        ns,
        at,
        spans: set.sorts.on,
    };
    let off = Rows {
        ns,
        at,
        spans: set.sorts.off,
    };
    let n = pick_sort(&on, set.cs, links, 0);
    let m = pick_sort(&off, set.cs, links, n);
    order::arrange(&mut links[..m]);
    m
}
