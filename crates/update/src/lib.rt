// The set of rows after an edit of a table: one row is written anew, added or taken out.
#![tactic(auto)]

mod node;
mod rows;

ghost use Rattle.std.specs.Prelude.{◌≡◌, length};
ghost use Rattle.update.specs.Update.{Edited, Updated};

use load::table::Rows;
use matching::{Master, Sorts, Spans};
use node::update_node;
use tables::edits::{master_of, number_of};

// Gives the rows of each sort and master. The edited row's limit becomes 0; the places of a row that had to move are put right.
// Columns, limits and places are lent as slices, one by one: a struct of arrays would ask more of callers than `Edited` does.
pub fn update(
    a: &[u8],
    b: &[u8],
    edit: &[u8],
    s: Sorts,
    ns: &mut [u32],
    at: &mut [[i16; 2]],
    cs: &mut [u32],
    limits: &mut [u64],
    places: &mut [[u16; 2]],
) -> Sorts
    requires { Edited a.now b.now edit.now ns.old at.old cs.old s limits.old }
    ensures { Updated a.now b.now ns.new at.new cs.new result limits.new
        × (length places.new ≡ length places.old) }
{
    let z = number_of(edit);
    // By its byte, which `Edited` speaks of: of an edit that was performed it is 0 or 1, and a `Master` made of it would add a case that is never met.
    if master_of(edit) == 0 {
        let m = Rows {
            on: s.on.a,
            off: s.off.a,
        };
        let r = update_node(a, z, m, Master::A, ns, at, cs, limits, places);
        return Sorts {
            on: Spans { a: r.on, ..s.on },
            off: Spans { a: r.off, ..s.off },
        };
    }
    let m = Rows {
        on: s.on.b,
        off: s.off.b,
    };
    let r = update_node(b, z, m, Master::B, ns, at, cs, limits, places);
    Sorts {
        on: Spans { b: r.on, ..s.on },
        off: Spans { b: r.off, ..s.off },
    }
}
