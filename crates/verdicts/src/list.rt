// The verdict on a list, and the links of a set of rows. A verdict only reads: done means that nothing is refused so far.
ghost use Rattle.std.specs.Prelude.{◌<◌, ◌≤◌, ◌≡◌, true, length};
ghost use Rattle.matching.specs.Definitions.Sizes.{link_rows};
ghost use Rattle.tables.specs.Definitions.Sizes.{list_size};
ghost use Rattle.stability.specs.Barred.{Barred};
ghost use Rattle.verdicts.specs.Lists.{links_on, leaves, list_answer, Listed, Beside, Reviewed, Finished, Settled};

use closest::join;
use contract::{Answer, Refusal, Refused};
use lists::compare::first_difference;
use lists::zeros::zero_from;
use matching::Set;
use matching::sizes::LINKS;
use stability::verify;

// Why the list is refused that leaves the finished one in this row.
fn leave(list: &[u8], row: u16) -> Refused
    requires { (length list.now ≡ list_size) × (row < link_rows) }
    ensures { result ≡ leaves list.now row }
{
    let refusal = if zero_from(list, usize::from(row)) {
        Refusal::Unfinished
    } else {
        Refusal::Damaged
    };
    Refused { refusal, row }
}

// The list beside the links of a set, which are joined.
fn compare(list: &[u8], set: Set, links: &mut [[u32; 4]]) -> Answer
    requires { Beside list.now set.ns.now set.at.now set.cs.now set.sorts × (length links.old ≡ link_rows) }
    ensures { (result ≡ list_answer list.now (links_on set.entry.sorts set.entry.ns.now set.entry.at.now set.entry.cs.now))
        × Listed (links_on set.entry.sorts set.entry.ns.now set.entry.at.now set.entry.cs.now) links.new }
{
    let n = join(set, links);
    // A count of links, at most 1,023: `as` only drops zero bytes.
    match first_difference(list, &links[..n]) {
        None => Ok(n as u16),
        Some(row) => Err(leave(list, row)),
    }
}

// Whether a check shows that a list, whose links are in rows, is finished.
fn finished(
    list: &[u8],
    set: Set,
    links: &[[u32; 4]],
    places: &[[u16; 2]],
    limits: &mut [u64],
) -> bool
    requires { (length list.now ≡ list_size) × (length links.now ≤ link_rows) × (length links.now ≤ length places.now)
        × Barred set.ns.now set.at.now set.sorts limits.old }
    ensures { (result ≡ true → Finished list.now (links_on set.entry.sorts set.entry.ns.now set.entry.at.now set.entry.cs.now) links.now)
        × Barred set.entry.ns.now set.entry.at.now set.entry.sorts limits.new }
{
    zero_from(list, links.len()) && verify(set, links, places, limits)
}

// The list, whose n links are in rows: without a join where a check shows that it is finished.
// The rows behind them are lent too, since a join writes there.
pub fn review(
    list: &[u8],
    set: Set,
    links: &mut [[u32; 4]],
    places: &[[u16; 2]],
    n: usize,
    limits: &mut [u64],
) -> Answer
    requires { Reviewed list.now set.ns.now set.at.now set.cs.now set.sorts links.old places.now n limits.old }
    ensures { (result ≡ list_answer list.now (links_on set.entry.sorts set.entry.ns.now set.entry.at.now set.entry.cs.now))
        × Listed (links_on set.entry.sorts set.entry.ns.now set.entry.at.now set.entry.cs.now) links.new
        × Barred set.entry.ns.now set.entry.at.now set.entry.sorts limits.new }
{
    if finished(list, set, &links[..n], places, limits) {
        // At most 1,023 here too.
        return Ok(n as u16);
    }
    compare(list, set, links)
}

// The links of a set: those found, where a check shows that they are its links, else joined anew. Gives their number.
pub fn settle(
    set: Set,
    links: &mut [[u32; 4]],
    places: &[[u16; 2]],
    found: Option<usize>,
    limits: &mut [u64],
) -> usize
    requires { Settled set.ns.now set.at.now set.sorts links.old places.now limits.old }
    ensures { Listed (links_on set.entry.sorts set.entry.ns.now set.entry.at.now set.entry.cs.now) links.new
        × (result ≡ length (links_on set.entry.sorts set.entry.ns.now set.entry.at.now set.entry.cs.now)) }
{
    if let Some(n) = found
        && n <= LINKS
        && verify(set, &links[..n], places, limits)
    {
        return n;
    }
    join(set, links)
}
