// The verdict on all that is lent but for a call's own buffers: the lengths, the tables, the list.
ghost use Rattle.std.specs.Prelude.{◌≡◌, length};
ghost use Rattle.matching.specs.Definitions.Rows.{Fits};
ghost use Rattle.matching.specs.Definitions.Sizes.{link_rows};
ghost use Rattle.stability.specs.Barred.{Barred};
ghost use Rattle.load.specs.Index.{Indexed};
ghost use Rattle.verdicts.specs.Lists.{links_on, list_answer, Listed, Beside};
ghost use Rattle.pairing.specs.Verdicts.{ListJudged};

use super::soundness::{Room, lengths};
use contract::Answer;
use lists::rows::read_links;
use load::index::locate;
use matching::sizes::{LINKS, ROWS};
use matching::{Set, Sorts};
use verdicts::list::review;

// The list beside the set: its links into rows, the places of their nodes, and the verdict.
pub fn examine(
    list: &[u8],
    room: &Room,
    sorts: Sorts,
    links: &mut [[u32; 4]],
    places: &mut [[u16; 2]],
    limits: &mut [u64],
) -> Answer
    requires fits { Fits room.now.ns room.now.at room.now.cs sorts × Indexed room.now.heads room.now.next }
    requires beside { Beside list.now room.now.ns room.now.at room.now.cs sorts }
    requires links_len { (length links.old ≡ link_rows) × (length places.old ≡ link_rows) × Barred room.now.ns room.now.at sorts limits.old }
    ensures { (result ≡ list_answer list.now (links_on sorts room.now.ns room.now.at room.now.cs))
        × Listed (links_on sorts room.now.ns room.now.at room.now.cs) links.new
        × (length places.new ≡ link_rows) × Barred room.now.ns room.now.at sorts limits.new }
{
    let set = Set::new(&room.ns, &room.at, &room.cs, sorts);
    let n = read_links(list, links);
    locate(
        sorts,
        &room.ns,
        &room.heads,
        &room.next,
        &links[..n],
        places,
    );
    review(list, set, links, places, n, limits)
}

// All of it; the list's links go into rows, and where it is done, its value counts them.
pub fn judge_all(a: &[u8], b: &[u8], list: &[u8], links: &mut [[u32; 4]]) -> Answer
    requires { length links.old ≡ link_rows }
    ensures { ListJudged a.now b.now list.now links.new result }
{
    lengths(a, b, list)?;
    let mut room = Room::new();
    let sorts = room.load(a, b, list)?;
    let mut places = [[0u16; 2]; LINKS];
    let mut limits = [0u64; ROWS];
    examine(list, &room, sorts, links, &mut places, &mut limits)
}
