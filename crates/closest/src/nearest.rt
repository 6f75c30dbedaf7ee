// The row nearest to a position among the other master's listed rows, by a scan that passes over blocks too far away.
ghost use Rattle.std.specs.Prelude.{◌≡◌, ◌<◌, length};
ghost use Rattle.matching.specs.declared.Master.{Master};
ghost use Rattle.matching.specs.Definitions.Columns.{Inside};
ghost use Rattle.matching.specs.Definitions.Rows.{across, upward, range, Placed};
ghost use Rattle.closest.specs.Blocks.{start, end_of, Aligned};
ghost use Rattle.closest.specs.Nearest.{Keyed, nearer, met, Listing, Guarded, Guards, Sought, Scanned, Partner};

use crate::blocks::Blocks;
use crate::live::Lists;
use crate::rows::Rows;
use crate::sizes::FAR;
use matching::Range;
use matching::sizes::{BLOCK, HALF};

// A place, and distance and number of its row as one key: the lesser key comes first.
// `repair` has a Near of its own: it holds a row with its bound, this one a place in a list.
#[derive(Clone, Copy)]
pub struct Near {
    pub key: u64,
    pub at: usize,
}

// The key of place k as seen from p.
pub fn measure(p: [i16; 2], k: usize, lists: &Lists) -> u64
    requires { Inside (across p) (upward p) × (k < length lists.now.listed) × Placed lists.now.points k }
    ensures { Keyed p lists.now.listed lists.now.points k result }
{
    matching::pack(matching::apart(p, lists.points[k]), lists.listed[k][0])
}

// The nearest so far, or place k where its key c is less.
fn closer(near: Near, c: u64, k: usize) -> Near
    ensures { result ≡ nearer near c k }
{
    if c < near.key {
        return Near { key: c, at: k };
    }
    near
}

// The nearest to p of the nearest so far and the places from first to end. None so far is a key above every key, as in `visit` and `scan`:
// an Option's None is less than any other, so that the least key would take a test more, here and for a block's.
fn search(p: [i16; 2], first: usize, end: usize, near: Near, lists: &Lists) -> Near
    requires { Inside (across p) (upward p) × Listing lists.now.listed lists.now.points first end }
    ensures { Sought p lists.now.listed lists.now.points first end near result }
{
    let mut r = near;
    for k in first..end {
        r = closer(r, measure(p, k, lists), k);
    }
    r
}

// The nearest to p of the nearest so far and the places that block b lists; a block too far away is not looked through.
fn visit(p: [i16; 2], b: usize, near: Near, blocks: &Blocks) -> Near
    requires { Inside (across p) (upward p)
        × Guarded blocks.now.lists.listed blocks.now.lists.points blocks.now.ends blocks.now.boxes b }
    ensures { Sought p blocks.now.lists.listed blocks.now.lists.points (start b) (end_of blocks.now.ends b) near result }
{
    let first = b * BLOCK;
    let end = blocks.ends[b][0] as usize;
    if end <= first {
        return near;
    }
    if matching::pack(boxes::clearance(p, blocks.boxes[b]), blocks.ends[b][1]) >= near.key {
        return near;
    }
    search(p, first, end, near, &blocks.lists)
}

// The nearest to p of the nearest so far and the rows of a range that are listed.
fn scan(p: [i16; 2], r: Range, near: Near, blocks: &Blocks) -> Near
    requires { Inside (across p) (upward p) × Aligned r
        × Guards blocks.now.lists.listed blocks.now.lists.points blocks.now.ends blocks.now.boxes r }
    ensures { Scanned p blocks.now.lists.listed blocks.now.lists.points blocks.now.ends r near result }
{
    let mut best = near;
    for b in r.from / BLOCK..r.to.div_ceil(BLOCK) {
        best = visit(p, b, best, blocks);
    }
    best
}

// What a search has found, if anything.
fn met(best: Near) -> Option<Near>
    ensures { result ≡ met best }
{
    if best.key == FAR {
        return None;
    }
    Some(best)
}

// The nearest to row t of the seed and the other master's listed rows, if there is one.
pub fn partner(t: usize, seed: Option<Near>, rows: &Rows, blocks: &Blocks) -> Option<Near>
    requires { Placed rows.now.at.now t × ((m : Master) → Aligned (range rows.now.spans m)
        × Guards blocks.now.lists.listed blocks.now.lists.points blocks.now.ends blocks.now.boxes (range rows.now.spans m)) }
    ensures { Partner rows.now.at.now blocks.now.lists.listed blocks.now.lists.points blocks.now.ends rows.now.spans t seed result }
{
    let near = seed.unwrap_or(Near { key: FAR, at: 0 });
    if t < HALF {
        return met(scan(rows.at[t], rows.spans.b, near, blocks));
    }
    met(scan(rows.at[t], rows.spans.a, near, blocks))
}
