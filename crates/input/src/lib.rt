// Reading a buffer full: what the programs have in common.
#![tactic(auto)]

ghost use Rattle.std.specs.Prelude.{◌≤◌, length, IfOk};

use std::io;
use std::io::Read;

// Reads until the buffer is full or the input ends; how many of its bytes were read.
pub fn read_full<R: Read>(from: &mut R, buf: &mut [u8]) -> io::Result<usize>
    ensures { IfOk result (λ n. n ≤ length buf.new) }
{
    // A read gives any number of bytes, so no range counts them.
    let mut end = 0;
    while end < buf.len() {
        let n = from.read(&mut buf[end..])?;
        if n == 0 {
            break;
        }
        end += n;
    }
    Ok(end)
}
