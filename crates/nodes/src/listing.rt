// The program's text, as a function of the bytes read: what a reader over the table gives.
ghost use Rattle.std.specs.Prelude.{◌+◌, ◌*◌, ◌≤◌, ◌≡◌, length};
ghost use Rattle.tables.specs.Definitions.Sizes.{node_rows};
ghost use Rattle.tables.specs.Definitions.Rows.{flat};
ghost use Rattle.player.specs.Definitions.Text.{Written};
ghost use Rattle.player.specs.Definitions.Lines.{line_room};
ghost use Rattle.reader.specs.Definitions.{numbered, readable, as_node};
ghost use Rattle.nodes.specs.Definitions.{input_room, text_room, position, entry, node_line, answer_line, listing};

use player::lines::LINE;
use player::text::{put_field, put_last, put_word};
use reader::{Node, look_up};
use tables::fields::number_at;
use tables::sizes::{NODE_X, NODES, TABLE};

// The number comes first, as wide as in a node's row.
const NUMBER: usize = NODE_X;

// A byte more than a table has, so that a longer one is seen to be longer.
const INPUT: usize = NUMBER + TABLE + 1;

// Room for every node and the answer.
const TEXT: usize = LINE * (NODES + 1);

// Made by functions, so that a proof sees the length of an array and not its elements.
// One for each buffer: their clauses name `input_room` and `text_room`, which the program needs where it calls `list`.
pub fn input_buffer() -> [u8; INPUT]
    ensures { input_room ≡ length result }
{
    [0; INPUT]
}

pub fn text_buffer() -> [u8; TEXT]
    ensures { text_room ≡ length result }
{
    [0; TEXT]
}

// A position behind a space, with its sign.
fn put_position(text: &mut [u8], at: usize, z: i16) -> usize
    requires { at + 12 ≤ length text.old }
    ensures written { Written text.old at (position z) text.new result }
    ensures upper_bound { result ≤ at + 12 }
{
    let n = u32::from(z.unsigned_abs());
    if z < 0 {
        return put_field(text, at, b" -", n);
    }
    put_field(text, at, b" ", n)
}

// A line with a node's fields behind a word.
fn put_node(text: &mut [u8], at: usize, word: &[u8], v: Node) -> usize
    requires { (at + line_room ≤ length text.old) × (length word.now ≤ 6) }
    ensures written { Written text.old at (entry word.now (as_node v)) text.new result }
    ensures upper_bound { result ≤ at + line_room }
{
    let first = put_field(text, at, word, v.number);
    let second = put_position(text, first, v.x);
    let third = put_position(text, second, v.y);
    let fourth = put_field(text, third, b" ", v.capacity);
    put_last(text, fourth, b" ", v.sort)
}

// A line for each node.
fn put_nodes(text: &mut [u8], at: usize, t: &[u8]) -> usize
    requires { at + line_room * node_rows ≤ length text.old }
    ensures written { Written text.old at (flat node_line (readable t.now)) text.new result }
    ensures upper_bound { result ≤ at + line_room * node_rows }
{
    let mut end = at;
    for v in reader::new(t) {
        end = put_node(text, end, b"node ", v);
    }
    end
}

// A line for the node with the number n.
fn put_answer(text: &mut [u8], at: usize, t: &[u8], n: u32) -> usize
    requires { at + line_room ≤ length text.old }
    ensures written { Written text.old at (answer_line (numbered n (readable t.now))) text.new result }
    ensures upper_bound { result ≤ at + line_room }
{
    let Some(v) = look_up(t, n) else {
        return put_word(text, at, b"none\n");
    };
    put_node(text, at, b"found ", v)
}

// All that is printed for an input, at the front of `text`; its length.
pub fn list(input: &[u8], text: &mut [u8]) -> usize
    requires { text_room ≤ length text.old }
    ensures written { Written text.old 0 (listing input.now) text.new result }
    ensures upper_bound { result ≤ text_room }
{
    if input.len() < NUMBER {
        return put_word(text, 0, b"short\n");
    }
    let n = number_at(input, 0);
    let table = &input[NUMBER..];
    let end = put_nodes(text, 0, table);
    put_answer(text, end, table, n)
}
