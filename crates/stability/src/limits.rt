// Limits: the key at and past which a row takes no pair. Each row of a range gets its own.
ghost use Rattle.std.specs.Prelude.{◌≤◌, ◌≡◌, length, get_or};
ghost use Rattle.matching.specs.Definitions.Rows.{Spanned};
ghost use Rattle.matching.specs.Definitions.Sizes.{set_rows};
ghost use Rattle.stability.specs.Ranges.{RowOf, OfSpans, Filled};
ghost use Rattle.stability.specs.Limits.{Limit};

use crate::sizes;
use matching::{Range, Spans};

// A row that has something left takes every pair.
fn limit(capacity: u32, taken: u32, last: u64) -> u64
    ensures { Limit capacity taken last result }
{
    if taken == capacity { last } else { sizes::FREE }
}

// The limits of the range's rows, in place of the keys of their last links.
fn note(r: Range, cs: &[u32], taken: &[u32], last: &mut [u64])
    requires { (r.from ≤ r.to) × (r.to ≤ length cs.now) × (r.to ≤ length taken.now) × (r.to ≤ length last.old) }
    ensures { Filled (RowOf r) (λ i k l. Limit (get_or cs.now i 0) (get_or taken.now i 0) k l)
        last.old last.new }
{
    for i in r.from..r.to {
        last[i] = limit(cs[i], taken[i], last[i]);
    }
}

// The same of a sort's rows, of both masters. One function for this and `copy_both` would take a closure whose own contract is longer than their two lines.
pub fn note_both(s: Spans, cs: &[u32], taken: &[u32], last: &mut [u64])
    requires { Spanned s × (length cs.now ≡ set_rows) × (length taken.now ≡ set_rows) × (length last.old ≡ set_rows) }
    ensures { Filled (OfSpans s) (λ i k l. Limit (get_or cs.now i 0) (get_or taken.now i 0) k l)
        last.old last.new }
{
    note(s.a, cs, taken, last);
    note(s.b, cs, taken, last);
}

// Copies the limits of the range's rows.
fn copy(r: Range, from: &[u64], to: &mut [u64])
    requires { (r.from ≤ r.to) × (r.to ≤ length from.now) × (r.to ≤ length to.old) }
    ensures { Filled (RowOf r) (λ i _ l. l ≡ get_or from.now i 0) to.old to.new }
{
    to[r.from..r.to].copy_from_slice(&from[r.from..r.to]);
}

// The same of a sort's rows, of both masters.
pub fn copy_both(s: Spans, from: &[u64], to: &mut [u64])
    requires { Spanned s × (length from.now ≡ set_rows) × (length to.old ≡ set_rows) }
    ensures { Filled (OfSpans s) (λ i _ l. l ≡ get_or from.now i 0) to.old to.new }
{
    copy(s.a, from, to);
    copy(s.b, from, to);
}
