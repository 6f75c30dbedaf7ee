// A list's links: their number and their lines.
ghost use Rattle.std.specs.Prelude.{◌+◌, ◌*◌, ◌≤◌, ◌≡◌, length};
ghost use Rattle.lists.specs.Lists.{links_of};
ghost use Rattle.tables.specs.Definitions.Sizes.{link_rows, list_size};
ghost use Rattle.tables.specs.Definitions.Rows.{flat};
ghost use Rattle.tables.specs.Definitions.Lists.{links_in as listed};
ghost use Rattle.player.specs.Definitions.Text.{Written};
ghost use Rattle.player.specs.Definitions.Lines.{line_room, link_line};
ghost use Rattle.player.specs.Definitions.Transcript.{link_lines};

use super::lines::link_line;
use lists::rows::read_links;
use tables::sizes::LINKS;

pub fn count_links(list: &[u8]) -> u32
    requires { length list.now ≡ list_size }
    ensures { result ≡ length (listed list.now) }
{
    let mut links = [[0u32; 4]; LINKS];
    let n = read_links(list, &mut links);
    n as u32
}

// The lines of links in rows.
fn put_links(text: &mut [u8], at: usize, links: &[[u32; 4]]) -> usize
    requires { at + line_room * length links.now ≤ length text.old }
    ensures written { Written text.old at (flat link_line (links_of links.now)) text.new result }
    ensures upper_bound { result ≤ at + line_room * length links.now }
{
    let mut end = at;
    for link in links {
        end = link_line(text, end, *link);
    }
    end
}

pub fn link_lines(text: &mut [u8], at: usize, list: &[u8]) -> usize
    requires list_len { length list.now ≡ list_size }
    requires link_rows_in_bounds { at + line_room * link_rows ≤ length text.old }
    ensures written { Written text.old at (link_lines list.now) text.new result }
    ensures upper_bound { result ≤ at + line_room * link_rows }
{
    let mut links = [[0u32; 4]; LINKS];
    let n = read_links(list, &mut links);
    put_links(text, at, &links[..n])
}
