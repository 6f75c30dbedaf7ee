// Bounding boxes: how near a position can be to any position in a box, told without a look at the rows.
// A box is a row: how far it goes west, east, south and north.
#![tactic(auto)]

ghost use Rattle.std.specs.Prelude.{ℕ, ◌<◌, ◌≤◌, length};
ghost use Rattle.matching.specs.Definitions.Columns.{Inside};
ghost use Rattle.matching.specs.Definitions.Rows.{across, upward, x_at, y_at};
ghost use Rattle.boxes.specs.Boxes.{Inner, Around, Clear, Gap, Clamped, Nearest, Grown};

// The box around a box and a position.
fn grow(b: [i16; 4], p: [i16; 2]) -> [i16; 4]
    ensures { Grown b p result }
{
    let [west, east, south, north] = b;
    let [x, y] = p;
    [west.min(x), east.max(x), south.min(y), north.max(y)]
}

// The box around the positions of the rows from first to end. The first is looked at twice, so that LLVM reads a block in whole vectors.
pub fn around(at: &[[i16; 2]], first: usize, end: usize) -> [i16; 4]
    requires { (first < end) × (end ≤ length at.now) × ((k : ℕ) → first ≤ k → k < end → Inside (x_at at.now k) (y_at at.now k)) }
    ensures { Around at.now first end result }
{
    let p = at[first];
    let mut b = [p[0], p[0], p[1], p[1]];
    // By k: the loop's invariant is `Around` itself, up to row k.
    for k in first..end {
        let next = grow(b, at[k]);
        b = next;
    }
    b
}

// The coordinate from low to high that is nearest to p. It is `clamp` without its condition, that low is at most high: callers may pass any box,
// and of one without room, whose low is past its high, the low end is tried first.
fn clamp(p: i16, low: i16, high: i16) -> i16
    ensures { Clamped p low high result }
{
    if p < low { low } else { p.min(high) }
}

// The position in the box that is nearest to p.
fn nearest(p: [i16; 2], b: [i16; 4]) -> [i16; 2]
    ensures { Nearest p b result }
{
    let [west, east, south, north] = b;
    let [x, y] = p;
    [clamp(x, west, east), clamp(y, south, north)]
}

// The squared distance of a position and a box: that of the position in the box that is nearest to it.
pub fn clearance(p: [i16; 2], b: [i16; 4]) -> u32
    requires { Inside (across p) (upward p) × Inner b }
    ensures { Clear p b result }
{
    matching::apart(p, nearest(p, b))
}

// The squared distance of two boxes: that of the second and the position in the first that is nearest to its south-west corner.
pub fn gap(b: [i16; 4], c: [i16; 4]) -> u32
    requires { Inner b × Inner c }
    ensures { Gap b c result }
{
    let [west, _, south, _] = c;
    clearance(nearest([west, south], b), c)
}
