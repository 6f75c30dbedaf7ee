// Words and numbers written into a lent text, each at a place and giving its end. The text and the end are no struct: callers,
// also of other crates, lend the text alone, and a struct would have to hold the loan.
ghost use Rattle.std.specs.Prelude.{◌+◌, ◌≤◌, length};
ghost use Rattle.player.specs.Definitions.Text.{decimal, field, last_field, Written};

pub fn put_word(text: &mut [u8], at: usize, word: &[u8]) -> usize
    requires { at + length word.now ≤ length text.old }
    ensures { Written text.old at word.now text.new result }
{
    let end = at + word.len();
    text[at..end].copy_from_slice(word);
    end
}

// A number in decimal. By recursion, as the library prints a number into a buffer of its own, from which it had to be copied.
fn put_decimal(text: &mut [u8], at: usize, n: u32) -> usize
    requires { at + length (decimal n) ≤ length text.old }
    ensures { Written text.old at (decimal n) text.new result }
{
    if n < 10 {
        text[at] = b'0' + n as u8;
        return at + 1;
    }
    let end = put_decimal(text, at, n / 10);
    text[end] = b'0' + (n % 10) as u8;
    end + 1
}

// A word and a number behind it, which has at most ten digits.
pub fn put_field(text: &mut [u8], at: usize, word: &[u8], n: u32) -> usize
    requires { at + length word.now + 10 ≤ length text.old }
    ensures written { Written text.old at (field word.now n) text.new result }
    ensures upper_bound { result ≤ at + length word.now + 10 }
{
    let middle = put_word(text, at, word);
    put_decimal(text, middle, n)
}

// The same at the end of a line.
pub fn put_last(text: &mut [u8], at: usize, word: &[u8], n: u32) -> usize
    requires { at + length word.now + 11 ≤ length text.old }
    ensures written { Written text.old at (last_field word.now n) text.new result }
    ensures upper_bound { result ≤ at + length word.now + 11 }
{
    let end = put_field(text, at, word, n);
    put_word(text, end, b"\n")
}
