// The list written: whole, or from the first row that changes.
ghost use Rattle.std.specs.Prelude.{◌*◌, ◌≤◌, ◌≡◌, ◌++◌, length, take, drop};
ghost use Rattle.matching.specs.Definitions.Sizes.{link_rows};
ghost use Rattle.tables.specs.Definitions.Sizes.{link_size, list_size};
ghost use Rattle.tables.specs.Definitions.Lists.{list_bytes};
ghost use Rattle.lists.specs.Lists.{links_of};
ghost use Rattle.verdicts.specs.Lists.{Rewritten};

use lists::compare::common_rows;
use lists::rows::write_links;
use tables::sizes::LINK;

// The links into a list, whose rows ahead of row `from` stay.
pub fn write_rows(list: &mut [u8], links: &[[u32; 4]], from: usize)
    requires { (length list.old ≡ list_size) × (from ≤ length links.now) × (length links.now ≤ link_rows) }
    ensures { list.new ≡ take (link_size * from) list.old
        ++ drop (link_size * from) (list_bytes (links_of links.now)) }
{
    write_links(&mut list[LINK * from..], links, from);
}

// A list of old links becomes that of new ones; gives how many rows are kept.
pub fn rewrite(list: &mut [u8], old: &[[u32; 4]], new: &[[u32; 4]]) -> usize
    requires { (length list.old ≡ list_size) × (length new.now ≤ link_rows) }
    ensures { Rewritten list.old (links_of old.now) (links_of new.now) list.new result }
{
    let kept = common_rows(old, new);
    write_rows(list, new, kept);
    kept
}
