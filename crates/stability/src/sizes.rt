// The sizes that the check works with, beside those of `matching`, as in specs/Sizes.antt. No other file of src/ has these numbers.
// The limit of a row that has something left: the key of every pair is below it.
pub const FREE: u64 = u64::MAX;

// The most blocks of a range.
pub const BLOCKS: usize = 16;
