// Lists the nodes of a table, and the one with a number. Standard input has the number, two bytes, and then the table.
#![tactic(auto)]

mod listing;

use input::read_full;
use std::io;
use std::io::Write;

// As in `replay`, but for the room and the text: one for both would take two sizes and a closure in place of five lines.
fn main(rt: HostRuntime) -> io::Result<()> {
    let mut input = listing::input_buffer();
    let count = read_full(&mut rt.stdin(), &mut input)?;
    let mut text = listing::text_buffer();
    let end = listing::list(&input[..count], &mut text);
    rt.stdout().write_all(&text[..end])
}
