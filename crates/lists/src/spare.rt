// What a node has left: its capacity less the amounts of its links.
ghost use Rattle.std.specs.Prelude.{◌-◌, ◌≡◌};
ghost use Rattle.matching.specs.Definitions.Pairs.{number_in};
ghost use Rattle.matching.specs.Definitions.Links.{pair_of, used};
ghost use Rattle.matching.specs.Definitions.Rows.{link_of};
ghost use Rattle.lists.specs.Lists.{links_of};

use matching::Master;

// The number of a master's node in a link.
fn number_in(link: &[u32; 4], master: Master) -> u32
    ensures { result ≡ number_in master (pair_of (link_of link.now)) }
{
    match master {
        Master::A => link[0],
        Master::B => link[1],
    }
}

// Of a master's node with this number and capacity.
// Amounts are taken off one by one and never below 0, so no sum of them can be too large.
pub fn spare(links: &[[u32; 4]], master: Master, number: u32, capacity: u32) -> u32
    ensures { result ≡ capacity - used master (links_of links.now) number }
{
    let mut left = capacity;
    for link in links {
        if number_in(link, master) == number {
            left = left.saturating_sub(link[3]);
        }
    }
    left
}
