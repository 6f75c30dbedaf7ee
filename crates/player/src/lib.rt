// Loads a drawing, plays edits and makes the replay program's text, on lent buffers.
#![tactic(auto)]

ghost use Rattle.std.specs.Prelude.{◌≤◌, ◌≡◌, length};
ghost use Rattle.tables.specs.Definitions.Sizes.{list_size};
ghost use Rattle.player.specs.Definitions.Text.{Written};
ghost use Rattle.player.specs.Definitions.Transcript.{load_lines, transcript, input_room, text_room};

pub mod lines;
mod links;
mod play;
pub mod text;

use lines::{LINE, load_line, outcome};
use pairing::pairing_pair;
use play::{EDITS, play};
use tables::sizes::{EDIT, LINKS, LIST, TABLE};
use text::put_word;

// Two tables come first.
const TABLES: usize = TABLE + TABLE;

// What the program reads at most: the tables and the edits.
pub const INPUT: usize = TABLES + EDIT * EDITS;

// Room for all that it prints: a load line, the edits, what is left over, the links.
pub const TEXT: usize = LINE + LINE * (EDITS + 1 + LINKS);

// Made by functions, so that a proof sees the length of an array and not its elements.
// One for each buffer: their clauses name `input_room` and `text_room`, which the program needs where it calls `replay`.
pub fn input_buffer() -> [u8; INPUT]
    ensures { input_room ≡ length result }
{
    [0; INPUT]
}

pub fn text_buffer() -> [u8; TEXT]
    ensures { text_room ≡ length result }
{
    [0; TEXT]
}

// Two tables loaded, and the edits played where they are accepted.
fn load(text: &mut [u8], a: &mut [u8], b: &mut [u8], list: &mut [u8], edits: &[u8]) -> usize
    requires list_len { length list.old ≡ list_size }
    requires text_room_in_bounds { text_room ≤ length text.old }
    ensures written { Written text.old 0 (load_lines a.old b.old list.old edits.now)
        text.new result }
    ensures upper_bound { result ≤ text_room }
{
    let answer = pairing_pair(a, b, list);
    let end = load_line(text, 0, answer);
    match outcome(answer) {
        Ok(_) => play(text, end, a, b, list, edits),
        Err(_) => end,
    }
}

// All that is printed for an input, at the front of `text`; its length.
pub fn replay(input: &[u8], text: &mut [u8]) -> usize
    requires { text_room ≤ length text.old }
    ensures written { Written text.old 0 (transcript input.now) text.new result }
    ensures upper_bound { result ≤ text_room }
{
    if input.len() < TABLES {
        return put_word(text, 0, b"short\n");
    }
    let mut a = [0u8; TABLE];
    let mut b = [0u8; TABLE];
    let mut list = [0u8; LIST];
    a.copy_from_slice(&input[..TABLE]);
    b.copy_from_slice(&input[TABLE..TABLES]);
    load(text, &mut a, &mut b, &mut list, &input[TABLES..])
}
