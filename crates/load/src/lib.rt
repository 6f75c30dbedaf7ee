// Tables into the set of rows: each decoded, put in order, indexed by number and judged once.
#![tactic(auto)]

pub mod decode;
pub mod fault;
pub mod index;
pub mod table;

ghost use Rattle.std.specs.Prelude.{◌≡◌, length};
ghost use Rattle.tables.specs.Definitions.Sizes.{table_size};
ghost use Rattle.load.specs.Load.{Columns, Loaded};

use matching::sizes::HALF;
use matching::{Sorts, Spans};
use table::table;

// Gives the rows of each sort and master.
// Columns, heads and next are lent as slices, one by one: a struct of arrays would ask more than `Columns` and `Indexed` do.
pub fn load(a: &[u8], b: &[u8], ns: &mut [u32], at: &mut [[i16; 2]], cs: &mut [u32]) -> Sorts
    requires { (length a.now ≡ table_size) × (length b.now ≡ table_size) × Columns ns.old at.old cs.old }
    ensures { Loaded a.now b.now ns.new at.new cs.new result }
{
    let p = table(a, 0, ns, at, cs);
    let q = table(b, HALF, ns, at, cs);
    Sorts {
        on: Spans { a: p.on, b: q.on },
        off: Spans { a: p.off, b: q.off },
    }
}
