// Whether a pair that did not block by the old limits does by the new ones: only rows that have a later limit than before are looked at.
ghost use Rattle.std.specs.Prelude.{ℕ, ◌≡◌, false, length};
ghost use Rattle.matching.specs.Definitions.Rows.{spans_of};
ghost use Rattle.matching.specs.Definitions.Sizes.{set_rows};
ghost use Rattle.stability.specs.Ranges.{RowOf, RangedSorts};
ghost use Rattle.stability.specs.Later.{Passed, StillStable};

use super::change::Change;
use super::rows::Rows;
use super::spread::spread;
use super::{blocking, later};
use matching::{Sorts, sizes};

// Some pair of a row of p that has a later limit and a row of q blocks. The other rows of p take no pair, so that blocks of them are skipped.
fn pass(c: Change) -> bool
    ensures { result ≡ false → (i j : ℕ) → RowOf c.entry.p i → RowOf c.entry.q j
        → Passed c.entry.ns.now c.entry.at.now c.entry.old.now c.entry.new.now i j }
{
    let Change {
        ns,
        at,
        old,
        new,
        p,
        q,
    } = c;
    let mut e = [0u64; sizes::ROWS];
    later::only_later(p, old, new, &mut e);
    blocking::any(
        Rows {
            ns,
            at,
            limits: &e,
            range: p,
        },
        Rows {
            ns,
            at,
            limits: new,
            range: q,
        },
    )
}

// Some pair does: p's rows against q's blocks, and q's against p's where some of p's are not looked at.
fn any_from(c: Change) -> bool
    ensures { result ≡ false → StillStable c.entry.ns.now c.entry.at.now c.entry.old.now c.entry.new.now c.entry.p c.entry.q }
{
    if pass(c) {
        return true;
    }
    if later::all(c.p, c.old, c.new) {
        return false;
    }
    pass(c.of(c.q, c.p))
}

// Some pair does. Blocks pass over more where their rows lie closer together, so most pairs are looked at by blocks of the closer range.
fn any(c: Change) -> bool
    ensures { result ≡ false → StillStable c.entry.ns.now c.entry.at.now c.entry.old.now c.entry.new.now c.entry.p c.entry.q }
{
    if spread(c.at, c.p) < spread(c.at, c.q) {
        return any_from(c.of(c.q, c.p));
    }
    any_from(c)
}

// Some pair of a sort's rows does. A sort that a master lacks has no pair.
fn any_of(c: Change) -> bool
    ensures { result ≡ false → StillStable c.entry.ns.now c.entry.at.now c.entry.old.now c.entry.new.now c.entry.p c.entry.q }
{
    if c.p.from == c.p.to || c.q.from == c.q.to {
        return false;
    }
    any(c)
}

// Some pair of one sort does, on-curve or off-curve.
pub fn any_alike(ns: &[u32], at: &[[i16; 2]], old: &[u64], new: &[u64], s: Sorts) -> bool
    requires { RangedSorts ns.now at.now s × (length old.now ≡ set_rows) × (length new.now ≡ set_rows) }
    ensures { result ≡ false → (t : ℕ) → StillStable ns.now at.now old.now new.now
        (spans_of s t).a (spans_of s t).b }
{
    let on = Change {
        ns,
        at,
        old,
        new,
        p: s.on.a,
        q: s.on.b,
    };
    if any_of(on) {
        return true;
    }
    any_of(on.of(s.off.a, s.off.b))
}
