// A master's rows put into an order in which rows that follow each other are close together in the plane.
#![tactic(auto)]

mod order;
mod settle;
mod sizes;

ghost use Rattle.packing.specs.Packed.{Packable, Packed};

use matching::Range;

// Puts the rows of a range in order, unless they are few. They denote the same nodes afterwards; how near a row is to the next is not promised.
pub fn arrange(r: Range, ns: &mut [u32], at: &mut [[i16; 2]], cs: &mut [u32])
    requires { Packable r ns.old at.old cs.old }
    ensures { Packed r ns.old at.old cs.old ns.new at.new cs.new }
{
    let n = r.to - r.from;
    if n <= sizes::FEW {
        return;
    }
    let mut rows = [0u16; sizes::ROWS];
    let rows = &mut rows[..n];
    order::order(&ns[r.from..r.to], &at[r.from..r.to], rows);
    settle::settle(r, rows, ns, at, cs);
}
