// Rows by number, through chains of rows whose numbers share a slot.
// Nothing is proved of what the chains hold: a row is given only where its number was compared, and equal numbers
// are found in the same row, so that "each number is found in its own row" says that no number stands twice.
ghost use Rattle.std.specs.Prelude.{◌≤◌, ◌<◌, ◌≡◌, true, length};
ghost use Rattle.matching.specs.Definitions.Sizes.{set_rows};
ghost use Rattle.matching.specs.Definitions.Rows.{Spanned};
ghost use Rattle.load.specs.Index.{slot_rows, slot_of, Indexed, span_of, Distinct, Found, FoundAll};

use crate::table::Rows;
use matching::sizes::{HALF, NODES};
use matching::{Range, Sorts};

// The slots of both masters.
pub const SLOTS: usize = 2048;

// The slot of a number among those of the master whose rows begin at `from`. The upper bits of a product by the golden
// ratio spread numbers that follow each other.
fn slot(from: usize, number: u32) -> usize
    ensures { (result ≡ slot_of from number) × (result < slot_rows) }
{
    from / HALF % 2 * (SLOTS / 2) + (number.wrapping_mul(2654435769) / 4194304) as usize
}

// The rows of both sorts, with those between them.
fn span(on: Range, off: Range) -> Range
    ensures { result ≡ span_of on off }
{
    Range {
        from: on.from,
        to: off.to,
    }
}

// Puts every row of the range at the head of its chain; an entry is a row plus 1.
// `heads` and `next` are lent apart, rows as numbers: `Indexed` asks for lengths alone, which a caller's slices meet.
fn chain(r: Range, ns: &[u32], heads: &mut [u16], next: &mut [u16])
    requires { (r.to ≤ set_rows) × (length ns.now ≡ set_rows) × Indexed heads.old next.old }
    ensures { Indexed heads.new next.new }
{
    for i in r.from..r.to {
        let h = slot(r.from, ns[i]);
        next[i] = heads[h];
        heads[h] = (i + 1) as u16;
    }
}

// Along the chain of a number: a row of the range with it, or the range's end. Any heads and next will do. The end and no
// Option: `Found` promises callers a row in either case, which fits a place.
pub fn find(r: Range, ns: &[u32], heads: &[u16], next: &[u16], number: u32) -> usize
    requires { (r.to ≤ set_rows) × (length ns.now ≡ set_rows) × Indexed heads.now next.now }
    ensures { Found r ns.now heads.now next.now number result }
{
    let mut i = usize::from(heads[slot(r.from, number)]);
    for _ in 0..NODES {
        if i <= r.from || r.to < i {
            break;
        }
        if ns[i - 1] == number {
            return i - 1;
        }
        i = usize::from(next[i - 1]);
    }
    r.to
}

// Every row of r is found by its number among those of w.
fn all_found(r: Range, w: Range, ns: &[u32], heads: &[u16], next: &[u16]) -> bool
    requires { (r.to ≤ set_rows) × (w.to ≤ set_rows) × (length ns.now ≡ set_rows) × Indexed heads.now next.now }
    ensures { result ≡ true → FoundAll r w ns.now heads.now next.now }
{
    for i in r.from..r.to {
        if find(w, ns, heads, next, ns[i]) != i {
            return false;
        }
    }
    true
}

// Fills the chains of a master's numbers; true where no number stands twice.
pub fn index(r: Rows, ns: &[u32], heads: &mut [u16], next: &mut [u16]) -> bool
    requires { (r.on.to ≤ set_rows) × (r.off.to ≤ set_rows) × (length ns.now ≡ set_rows) × Indexed heads.old next.old }
    ensures { (result ≡ true → Distinct r ns.now) × Indexed heads.new next.new }
{
    chain(r.on, ns, heads, next);
    chain(r.off, ns, heads, next);
    let w = span(r.on, r.off);
    all_found(r.on, w, ns, heads, next) && all_found(r.off, w, ns, heads, next)
}

// For each link the rows where its nodes were found, or the end of their master's. A hint: who uses it compares again.
pub fn locate(
    s: Sorts,
    ns: &[u32],
    heads: &[u16],
    next: &[u16],
    links: &[[u32; 4]],
    places: &mut [[u16; 2]],
)
    requires { Spanned s.off × (length ns.now ≡ set_rows) × Indexed heads.now next.now }
    ensures { length places.new ≡ length places.old }
{
    let a = span(s.on.a, s.off.a);
    let b = span(s.on.b, s.off.b);
    for (place, link) in places.iter_mut().zip(links) {
        *place = [
            find(a, ns, heads, next, link[0]) as u16,
            find(b, ns, heads, next, link[1]) as u16,
        ];
    }
}
