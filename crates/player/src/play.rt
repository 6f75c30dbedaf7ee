// Edits played one after the other, with their lines.
ghost use Rattle.std.specs.Prelude.{◌+◌, ◌*◌, ◌≤◌, ◌≡◌, length};
ghost use Rattle.tables.specs.Definitions.Sizes.{edit_size, list_size};
ghost use Rattle.player.specs.Definitions.Text.{Written};
ghost use Rattle.player.specs.Definitions.Lines.{line_room};
ghost use Rattle.player.specs.Definitions.Transcript.{edits_most, play_room, drawing, after, turn_line, edited, edit_lines, playable, left_line, play_lines};

use super::lines::edit_line;
use super::links::{count_links, link_lines};
use super::text::put_last;
use pairing::pairing_edit;
use tables::sizes::EDIT;

// After so many edits nothing more is read.
pub const EDITS: usize = 10000;

// One edit, the n-th.
// A drawing is its three slices, with the list's length in each clause: `pairing_edit` is lent them so, of whatever lengths.
fn play_edit(
    text: &mut [u8],
    at: usize,
    a: &mut [u8],
    b: &mut [u8],
    list: &mut [u8],
    edit: &[u8],
    n: u32,
) -> usize
    requires list_len { length list.old ≡ list_size }
    requires line_room_in_bounds { at + line_room ≤ length text.old }
    ensures written { Written text.old at (turn_line n (drawing a.old b.old list.old)
        edit.now) text.new result }
    ensures list_after { drawing a.new b.new list.new
        ≡ after (drawing a.old b.old list.old) edit.now }
    ensures upper_bound { result ≤ at + line_room }
{
    let answer = pairing_edit(a, b, list, edit);
    let links = count_links(list);
    edit_line(text, at, n, answer, links)
}

// The number of edits in n bytes that are played.
fn count_edits(n: usize) -> usize
    ensures value { result ≡ playable n }
    ensures result_bound { (edit_size * result ≤ n) × (result ≤ edits_most) }
{
    (n / EDIT).min(EDITS)
}

fn play_edits(
    text: &mut [u8],
    at: usize,
    a: &mut [u8],
    b: &mut [u8],
    list: &mut [u8],
    edits: &[u8],
) -> usize
    requires list_len { length list.old ≡ list_size }
    requires edits_most_in_bounds { at + line_room * edits_most ≤ length text.old }
    ensures written { Written text.old at (edit_lines (drawing a.old b.old list.old)
        edits.now (playable (length edits.now))) text.new result }
    ensures list_after { drawing a.new b.new list.new
        ≡ edited (drawing a.old b.old list.old) edits.now (playable (length edits.now)) }
    ensures upper_bound { result ≤ at + line_room * edits_most }
{
    let mut end = at;
    // By k: an edit's line has its number, and `edited` plays edits by number, `playable` of them.
    for k in 0..count_edits(edits.len()) {
        let from = EDIT * k;
        let edit = &edits[from..from + EDIT];
        end = play_edit(text, end, a, b, list, edit, (k + 1) as u32);
    }
    end
}

// What is left over of n bytes: too few for an edit, where more are read at all.
fn left_line(text: &mut [u8], at: usize, n: usize) -> usize
    requires { at + line_room ≤ length text.old }
    ensures written { Written text.old at (left_line n) text.new result }
    ensures upper_bound { result ≤ at + line_room }
{
    let left = n % EDIT;
    if n / EDIT < EDITS && left != 0 {
        return put_last(text, at, b"part ", left as u32);
    }
    at
}

// All that follows the load line.
pub fn play(
    text: &mut [u8],
    at: usize,
    a: &mut [u8],
    b: &mut [u8],
    list: &mut [u8],
    edits: &[u8],
) -> usize
    requires list_len { length list.old ≡ list_size }
    requires play_room_in_bounds { at + play_room ≤ length text.old }
    ensures written { Written text.old at (play_lines (drawing a.old b.old list.old)
        edits.now) text.new result }
    ensures upper_bound { result ≤ at + play_room }
{
    let played = play_edits(text, at, a, b, list, edits);
    let left = left_line(text, played, edits.len());
    link_lines(text, left, list)
}
