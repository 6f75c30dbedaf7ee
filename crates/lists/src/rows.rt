// Rows of links to the bytes of a list, and back.
ghost use Rattle.std.specs.Prelude.{◌+◌, ◌*◌, ◌-◌, ◌≤◌, ◌≡◌, length, drop};
ghost use Rattle.matching.specs.Definitions.Rows.{link_of};
ghost use Rattle.matching.specs.Definitions.Sizes.{link_rows};
ghost use Rattle.tables.specs.Definitions.Sizes.{link_size, list_size};
ghost use Rattle.tables.specs.Definitions.Rows.{flat, put};
ghost use Rattle.tables.specs.Definitions.Lists.{link_bytes, list_bytes, link_from};
ghost use Rattle.lists.specs.Lists.{Held, LinksRead, links_of};

use matching::sizes::LINKS;
use tables::fields;
use tables::sizes::{AMOUNT, DISTANCE, LINK, LINK_AMOUNT, LINK_B, LINK_DISTANCE, NUMBER};

// The row that begins at byte `at`.
pub fn row_at(list: &[u8], at: usize) -> [u32; 4]
    requires { at + link_size ≤ length list.now }
    ensures { link_of result ≡ link_from list.now at }
{
    [
        fields::number_at(list, at),
        fields::number_at(list, at + LINK_B),
        fields::four_at(list, at + LINK_DISTANCE),
        fields::two_at(list, at + LINK_AMOUNT),
    ]
}

// One link's row at byte `at`.
pub fn put_row(part: &mut [u8], at: usize, link: [u32; 4])
    requires { at + link_size ≤ length part.old }
    ensures { part.new ≡ put part.old at (link_bytes (link_of link)) }
{
    fields::put_nat::<NUMBER>(part, at, link[0]);
    fields::put_nat::<NUMBER>(part, at + LINK_B, link[1]);
    fields::put_nat::<DISTANCE>(part, at + LINK_DISTANCE, link[2]);
    fields::put_nat::<AMOUNT>(part, at + LINK_AMOUNT, link[3]);
}

// The links' rows, at the front of `part`.
fn put_rows(part: &mut [u8], links: &[[u32; 4]])
    requires { link_size * length links.now ≤ length part.old }
    ensures { part.new ≡ put part.old 0 (flat link_bytes (links_of links.now)) }
{
    for k in 0..links.len() {
        put_row(part, LINK * k, links[k]);
    }
}

// `part` is the list from row `from` on: the links' rows from there on, and zeros after.
pub fn write_links(part: &mut [u8], links: &[[u32; 4]], from: usize)
    requires { (length part.old ≡ list_size - link_size * from) × (from ≤ length links.now) × (length links.now ≤ link_rows) }
    ensures { part.new ≡ drop (link_size * from) (list_bytes (links_of links.now)) }
{
    let rest = &links[from..];
    put_rows(part, rest);
    part[LINK * rest.len()..].fill(0);
}

// The links of a list, up to the first row without an A number; their count.
pub fn read_links(list: &[u8], links: &mut [[u32; 4]]) -> usize
    requires { (length list.now ≡ list_size) × Held links.old 0 }
    ensures { LinksRead list.now links.new result }
{
    for k in 0..LINKS {
        let link = row_at(list, LINK * k);
        if link[0] == 0 {
            return k;
        }
        links[k] = link;
    }
    LINKS
}
