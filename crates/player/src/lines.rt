// The lines of document 01, E11, each written at a place of a lent text and giving its end.
ghost use Rattle.std.specs.Prelude.{◌+◌, ◌≤◌, ◌≡◌, ◌≢◌, length, IfOk, IfErr};
ghost use Rattle.matching.specs.Definitions.Rows.{link_of};
ghost use Rattle.player.specs.Definitions.Text.{Written};
ghost use Rattle.player.specs.Definitions.Lines.{line_room, refusal_in, value_in, load_line, edit_line, link_line};

use super::text::{put_field, put_last};

// Room for any line.
pub const LINE: usize = 64;

// A call's answer is the refusal number times this plus the value.
pub const VALUES: u32 = 65536;

// What refuses a call: the refusal's number, and the value beside it.
// Numbers, not `contract`'s Refused: of an answer any number may come back, also one of no refusal.
#[derive(Clone, Copy)]
pub(crate) struct Refused {
    number: u32,
    value: u32,
}

// What a call's answer says: its value, or what refuses it.
pub(crate) fn outcome(answer: u32) -> Result<u32, Refused>
    ensures done { IfOk result (λ v. (refusal_in answer ≡ 0) × (v ≡ value_in answer)) }
    ensures refused { IfErr result (λ r. (refusal_in answer ≢ 0) × (r.number ≡ refusal_in answer) × (r.value ≡ value_in answer)) }
{
    let number = answer / VALUES;
    let value = answer % VALUES;
    if number == 0 {
        return Ok(value);
    }
    Err(Refused { number, value })
}

// After loading.
pub fn load_line(text: &mut [u8], at: usize, answer: u32) -> usize
    requires { at + line_room ≤ length text.old }
    ensures written { Written text.old at (load_line answer) text.new result }
    ensures upper_bound { result ≤ at + line_room }
{
    match outcome(answer) {
        Ok(value) => put_last(text, at, b"load ", value),
        Err(refused) => {
            let middle = put_field(text, at, b"load refused ", refused.number);
            put_last(text, middle, b" row ", refused.value)
        }
    }
}

// After the n-th edit.
pub fn edit_line(text: &mut [u8], at: usize, n: u32, answer: u32, links: u32) -> usize
    requires { at + line_room ≤ length text.old }
    ensures written { Written text.old at (edit_line n answer links) text.new result }
    ensures upper_bound { result ≤ at + line_room }
{
    let first = put_field(text, at, b"edit ", n);
    match outcome(answer) {
        Ok(kept) => {
            let second = put_field(text, first, b" kept ", kept);
            put_last(text, second, b" links ", links)
        }
        Err(refused) => put_last(text, first, b" refused ", refused.number),
    }
}

pub fn link_line(text: &mut [u8], at: usize, link: [u32; 4]) -> usize
    requires { at + line_room ≤ length text.old }
    ensures written { Written text.old at (link_line (link_of link)) text.new result }
    ensures upper_bound { result ≤ at + line_room }
{
    let first = put_field(text, at, b"link ", link[0]);
    let second = put_field(text, first, b" ", link[1]);
    let third = put_field(text, second, b" ", link[2]);
    put_last(text, third, b" ", link[3])
}
