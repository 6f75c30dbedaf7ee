// A pass over the pairs of two ranges, both block by block: does one block, that is, is it ahead of the limits of both its nodes? Then the links lack it.
// A block of the second range is in lanes: its numbers, positions, and limits as distances and numbers.
ghost use Rattle.std.specs.Prelude.{ℕ, ◌+◌, ◌≤◌, ◌<◌, ◌≡◌, false, pos, get_or};
ghost use Rattle.matching.specs.Definitions.Pairs.{squared_distance};
ghost use Rattle.matching.specs.Definitions.Columns.{Inside};
ghost use Rattle.matching.specs.Definitions.Rows.{across, upward, key};
ghost use Rattle.matching.specs.Definitions.Sizes.{block_rows, number_range};
ghost use Rattle.stability.specs.Ranges.{RowOf};
ghost use Rattle.stability.specs.Blocking.{Blocks};
ghost use Rattle.stability.specs.Blocks.{Encloses, Surveyed};
ghost use Rattle.stability.specs.Lanes.{late as lateOf, StableLanes};
ghost use Rattle.stability.specs.Sides.{StableSides};

use super::blocks::{Block, survey};
use super::bounded::Bounded;
use super::lanes::{Lanes, number};
use super::rows::Rows;
use crate::sizes::BLOCKS;
use matching::sizes::BLOCK;

// 0 where n is below o, else 1: added to a distance it settles ties, without a branch.
// No conversion of `n >= o`: vectors have no such test without a sign, and the innermost loop then takes two instructions more for eight lanes.
fn late(n: u32, o: u32) -> u32
    ensures { (result ≡ lateOf n o) × (result ≤ 1) }
{
    if n < o { 0 } else { 1 }
}

// 1 where p is at most s and q at most t, else 0, without a branch.
fn both(p: u32, s: u32, q: u32, t: u32) -> u32
    ensures { (result ≤ 1) × (result ≡ 0 → p ≤ s → q ≤ t → ⊥) }
{
    u32::from((p <= s) & (q <= t))
}

// 1 where nodes d apart, numbered n and m, block: their limits are (f, g) and (h, k).
// Plain numbers: each is read from an array of its own in `count`, and a struct of them would be taken apart at once.
fn blocks(d: u32, n: u32, f: u32, g: u32, m: u32, h: u32, k: u32) -> u32
    requires { d + 1 < number_range }
    ensures { (result ≤ 1) × (result ≡ 0 → ¬ Blocks d n (key f g) m (key h k)) }
{
    both(d + late(m, g), f, d + late(n, k), h)
}

// How many lanes the node at p with number n and limit l blocks with.
fn count(p: [i16; 2], n: u32, l: u64, lanes: &Lanes) -> u32
    requires { Inside (across p) (upward p)
        × ((k : ℕ) → k < block_rows → Inside (get_or lanes.now.x k (pos 0)) (get_or lanes.now.y k (pos 0))) }
    ensures { result ≡ 0 → (k : ℕ) → k < block_rows
        → ¬ Blocks (squared_distance (across p) (upward p) (get_or lanes.now.x k (pos 0)) (get_or lanes.now.y k (pos 0))) n l
        (get_or lanes.now.numbers k 0) (key (get_or lanes.now.far k 0) (get_or lanes.now.high k 0)) }
{
    let far = matching::distance(l);
    let high = number(l);
    let mut count = 0;
    for k in 0..BLOCK {
        let d = matching::squared_distance(p[0], p[1], lanes.x[k], lanes.y[k]);
        count += blocks(
            d,
            n,
            far,
            high,
            lanes.numbers[k],
            lanes.far[k],
            lanes.high[k],
        );
    }
    count
}

// Row i blocks with some lane.
fn row(rows: Rows, i: usize, b: Bounded) -> bool
    requires { RowOf rows.range i }
    ensures { result ≡ false → StableLanes rows.entry.ns.now rows.entry.at.now rows.entry.limits.now b.entry.lanes.now i }
{
    if b.block.is_past(rows.at[i], rows.ns[i], rows.limits[i]) {
        return false;
    }
    count(rows.at[i], rows.ns[i], rows.limits[i], b.lanes) != 0
}

// Some row does.
fn group(rows: Rows, b: Bounded) -> bool
    ensures { result ≡ false → (i : ℕ) → RowOf rows.entry.range i
        → StableLanes rows.entry.ns.now rows.entry.at.now rows.entry.limits.now b.entry.lanes.now i }
{
    for i in rows.range.from..rows.range.to {
        if row(rows, i, b) {
            return true;
        }
    }
    false
}

// The same, where the block a encloses the rows: two blocks that are apart are skipped.
fn between(a: Block, rows: Rows, b: Bounded) -> bool
    requires { Encloses rows.ns.now rows.at.now rows.limits.now rows.range a }
    ensures { result ≡ false → (i : ℕ) → RowOf rows.entry.range i
        → StableLanes rows.entry.ns.now rows.entry.at.now rows.entry.limits.now b.entry.lanes.now i }
{
    if a.is_apart(b.block) {
        return false;
    }
    group(rows, b)
}

// Some row, which the blocks enclose, blocks with some lane.
fn by_blocks(blocks: &[Block; BLOCKS], rows: Rows, b: Bounded) -> bool
    requires { Surveyed rows.ns.now rows.at.now rows.limits.now rows.range blocks.now }
    ensures { result ≡ false → (i : ℕ) → RowOf rows.entry.range i
        → StableLanes rows.entry.ns.now rows.entry.at.now rows.entry.limits.now b.entry.lanes.now i }
{
    for g in 0..rows.blocks() {
        if between(blocks[g], rows.part(g), b) {
            return true;
        }
    }
    false
}

// Some row of p blocks with some row of r, one of a range's blocks: by copies of r's rows, so that the innermost loop runs a fixed number of times.
fn with_block(blocks: &[Block; BLOCKS], p: Rows, r: Rows) -> bool
    requires { Surveyed p.ns.now p.at.now p.limits.now p.range blocks.now × (r.range.from < r.range.to)
        × (r.range.to ≤ r.range.from + block_rows) }
    ensures { result ≡ false → StableSides p.entry r.entry }
{
    let mut lanes = Lanes::new();
    lanes.fill(r);
    let block = Block::enclose(r);
    by_blocks(
        blocks,
        p,
        Bounded {
            block,
            lanes: &lanes,
        },
    )
}

// Some row of p blocks with some row of q.
pub fn any(p: Rows, q: Rows) -> bool
    ensures { result ≡ false → StableSides p.entry q.entry }
{
    let blocks = survey(p);
    for g in 0..q.blocks() {
        if with_block(&blocks, p, q.part(g)) {
            return true;
        }
    }
    false
}
