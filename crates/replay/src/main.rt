// Replays the edits on standard input: what document 01, E11, prints for them.
#![tactic(auto)]

use input::read_full;
use std::io;
use std::io::Write;

// As in `nodes`, but for the room and the text: one for both would take two sizes and a closure in place of five lines.
fn main(rt: HostRuntime) -> io::Result<()> {
    let mut input = player::input_buffer();
    let count = read_full(&mut rt.stdin(), &mut input)?;
    let mut text = player::text_buffer();
    let end = player::replay(&input[..count], &mut text);
    rt.stdout().write_all(&text[..end])
}
