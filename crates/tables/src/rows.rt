// A node's row: its fields within their ranges, or all zero.
ghost use Rattle.std.specs.Prelude.{◌+◌, ◌≤◌, ◌≡◌, length};
ghost use Rattle.tables.specs.Definitions.Sizes.{position_size, node_size};
ghost use Rattle.tables.specs.Definitions.Fields.{position_at};
ghost use Rattle.tables.specs.Definitions.Tables.{position_good, capacity_good, fields_good, fields_zero};

use super::fields::{position_at, two_at};
use super::sizes::{BYTE_END, FARTHEST, MOST, MOST_SORT, NODE_CAPACITY, NODE_X, NODE_Y};

#[tactic(auto, unfolding(crate::specs::Definitions::Tables::position_good))]
fn position_good(p: i16) -> bool
    ensures { result ≡ position_good p }
{
    p.unsigned_abs() <= FARTHEST.unsigned_abs()
}

// The position at byte `at` is within its range.
pub fn position_good_at(s: &[u8], at: usize) -> bool
    requires { at + position_size ≤ length s.now }
    ensures { result ≡ position_good (position_at s.now at) }
{
    position_good(position_at(s, at))
}

// A capacity field: the capacity and the sort within their ranges.
#[tactic(auto, unfolding(crate::specs::Definitions::Tables::capacity_good))]
pub fn capacity_good(field: u32) -> bool
    ensures { result ≡ capacity_good field }
{
    let capacity = field % BYTE_END;
    // Written as `capacity_good` is, so that it unfolds to this.
    1 <= capacity && capacity <= MOST && field / BYTE_END <= MOST_SORT
}

// The fields of the row at byte `at`, but for the number, are within their ranges.
#[tactic(auto, unfolding(crate::specs::Definitions::Tables::fields_good))]
pub fn fields_good(t: &[u8], at: usize) -> bool
    requires { at + node_size ≤ length t.now }
    ensures { result ≡ fields_good t.now at }
{
    position_good_at(t, at + NODE_X)
        && position_good_at(t, at + NODE_Y)
        && capacity_good(two_at(t, at + NODE_CAPACITY))
}

// They are all zero.
#[tactic(auto, unfolding(crate::specs::Definitions::Tables::fields_zero))]
pub fn fields_zero(t: &[u8], at: usize) -> bool
    requires { at + node_size ≤ length t.now }
    ensures { result ≡ fields_zero t.now at }
{
    two_at(t, at + NODE_X) == 0 && two_at(t, at + NODE_Y) == 0 && two_at(t, at + NODE_CAPACITY) == 0
}
