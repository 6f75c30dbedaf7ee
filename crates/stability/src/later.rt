// Which rows of a range have a later limit than before.
ghost use Rattle.std.specs.Prelude.{ℕ, ◌≤◌, ◌≡◌, true, length, get_or};
ghost use Rattle.stability.specs.Ranges.{RowOf, Filled};
ghost use Rattle.stability.specs.Later.{Later, Moved};

use matching::Range;

// The new limit where it is later, else the one that shuts all pairs.
fn later(old: u64, new: u64) -> u64
    ensures { Later old new result }
{
    if old < new { new } else { 0 }
}

// Puts into e the limits of the rows that have; the other rows take no pair.
pub fn only_later(r: Range, old: &[u64], new: &[u64], e: &mut [u64])
    requires { (r.from ≤ r.to) × (r.to ≤ length old.now) × (r.to ≤ length new.now) × (r.to ≤ length e.old) }
    ensures { Filled (RowOf r) (λ i _ l. Later (get_or old.now i 0) (get_or new.now i 0) l) e.old e.new }
{
    for i in r.from..r.to {
        e[i] = later(old[i], new[i]);
    }
}

// The new limit is later, or takes no pair.
fn moved(old: u64, new: u64) -> bool
    ensures { result ≡ true → Moved old new }
{
    new == 0 || old < new
}

// Each row has a later limit, or one that takes no pair.
pub fn all(r: Range, old: &[u64], new: &[u64]) -> bool
    requires { (r.to ≤ length old.now) × (r.to ≤ length new.now) }
    ensures { result ≡ true → (i : ℕ) → RowOf r i → Moved (get_or old.now i 0) (get_or new.now i 0) }
{
    for i in r.from..r.to {
        if !moved(old[i], new[i]) {
            return false;
        }
    }
    true
}
