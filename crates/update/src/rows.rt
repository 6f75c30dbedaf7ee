// Single rows of the set: looked for, and filled by another.
ghost use Rattle.std.specs.Prelude.{◌≤◌, ◌<◌, ◌≡◌, [], length, get_or, set};
ghost use Rattle.matching.specs.Definitions.Sizes.{set_rows};
ghost use Rattle.load.specs.Load.{Columns, Written};
ghost use Rattle.update.specs.Rows.{Found};

use matching::{Master, Range};

// The row of the range that has the number z, where one has it.
pub fn find(r: Range, ns: &[u32], z: u32) -> Option<usize>
    requires { (r.from ≤ r.to) × (r.to ≤ length ns.now) }
    ensures { Found r ns.now z result }
{
    // By k, as `Found` speaks of rows by number; `repair` looks by `position`, and promises less.
    for k in r.from..r.to {
        if ns[k] == z {
            return Some(k);
        }
    }
    None
}

// Copies row `last`, with its limit, into another.
pub fn fill(
    row: usize,
    last: usize,
    ns: &mut [u32],
    at: &mut [[i16; 2]],
    cs: &mut [u32],
    limits: &mut [u64],
)
    requires { (row < set_rows) × (last < set_rows) × Columns ns.old at.old cs.old × (length limits.old ≡ set_rows) }
    ensures { Written row (get_or ns.old last 0) (get_or at.old last []) (get_or cs.old last 0)
        ns.old at.old cs.old ns.new at.new cs.new
        × (limits.new ≡ set limits.old row (get_or limits.old last 0)) }
{
    ns[row] = ns[last];
    at[row] = at[last];
    cs[row] = cs[last];
    limits[row] = limits[last];
}

// The places of the master's node that were row `last` become the other row.
pub fn redirect(master: Master, last: u16, row: u16, places: &mut [[u16; 2]])
    ensures { length places.new ≡ length places.old }
{
    let side = master as usize;
    for place in places {
        if place[side] == last {
            place[side] = row;
        }
    }
}
