// Fields of bytes: little-endian numbers, and two's complement positions.
ghost use Rattle.std.specs.Prelude.{◌+◌, ◌≤◌, ◌<◌, ◌≡◌, length};
ghost use Rattle.tables.specs.Definitions.Sizes.{number_size, position_size};
ghost use Rattle.tables.specs.Definitions.Fields.{nat_at, nat_bytes, signed, position_at};
ghost use Rattle.tables.specs.Definitions.Rows.{put};

// A number of two bytes, and one of four: a width W would first copy the bytes into four, once for each field of each row.
pub fn two_at(s: &[u8], at: usize) -> u32
    requires { at + 2 ≤ length s.now }
    ensures { (result ≡ nat_at 2 s.now at) × (result < 65536) }
{
    u32::from(u16::from_le_bytes([s[at], s[at + 1]]))
}

pub fn four_at(s: &[u8], at: usize) -> u32
    requires { at + 4 ≤ length s.now }
    ensures { result ≡ nat_at 4 s.now at }
{
    u32::from_le_bytes([s[at], s[at + 1], s[at + 2], s[at + 3]])
}

// A node's number, as the fields of its row are named.
pub fn number_at(s: &[u8], at: usize) -> u32
    requires { at + number_size ≤ length s.now }
    ensures { result ≡ nat_at number_size s.now at }
{
    two_at(s, at)
}

// The position that 16 bits stand for. They fit, so that try_from would only test it again.
// By the two cases of the OpenType description, each arm saying its value.
pub fn position(bits: u32) -> i16
    requires { bits < 65536 }
    ensures { result ≡ signed bits }
{
    let n = bits as u16;
    match n {
        0..=32767 => n as i16,
        32768..=65535 => (i32::from(n) - 65536) as i16,
    }
}

pub fn position_at(s: &[u8], at: usize) -> i16
    requires { at + position_size ≤ length s.now }
    ensures { result ≡ position_at s.now at }
{
    position(two_at(s, at))
}

// A number as W bytes.
pub fn put_nat<const W: usize>(s: &mut [u8], at: usize, n: u32)
    requires { (W ≤ 4) × (at + W ≤ length s.old) }
    ensures { s.new ≡ put s.old at (nat_bytes W n) }
{
    s[at..at + W].copy_from_slice(&n.to_le_bytes()[..W]);
}
