// Two lists compared: the first row in which they differ, and how many leading links they have in common.
ghost use Rattle.std.specs.Prelude.{◌≤◌, ◌<◌, ◌≡◌, length};
ghost use Rattle.matching.specs.Definitions.Links.{common};
ghost use Rattle.matching.specs.Definitions.Sizes.{link_rows};
ghost use Rattle.tables.specs.Definitions.Lists.{list_bytes, differs, first_difference};
ghost use Rattle.lists.specs.Lists.{Comparable, links_of};

use super::rows::row_at;
use matching::sizes::LINKS;
use tables::sizes::LINK;

// Row `k` differs from that of the link, or from a zero row behind the links.
fn row_differs(list: &[u8], links: &[[u32; 4]], k: usize) -> bool
    requires { Comparable list.now links.now × (k < link_rows) }
    ensures { result ≡ differs list.now (list_bytes (links_of links.now)) k }
{
    row_at(list, LINK * k) != links.get(k).copied().unwrap_or([0; 4])
}

// The first row in which the list differs from that of the links. No byte list is built.
pub fn first_difference(list: &[u8], links: &[[u32; 4]]) -> Option<u16>
    requires { Comparable list.now links.now }
    ensures { result ≡ first_difference list.now (list_bytes (links_of links.now)) }
{
    for row in 0..LINKS {
        if row_differs(list, links, row) {
            // A row fits two bytes: try_from would only test it again.
            return Some(row as u16);
        }
    }
    None
}

// How many leading links the old rows and the new ones have in common.
pub fn common_rows(old: &[[u32; 4]], new: &[[u32; 4]]) -> usize
    ensures { (result ≡ common (links_of old.now) (links_of new.now)) × (result ≤ length old.now) }
{
    let least = old.len().min(new.len());
    // By k: with `zip` and `position` the lesser length has to be named all the same, for links that are all alike.
    for k in 0..least {
        if old[k] != new[k] {
            return k;
        }
    }
    least
}
