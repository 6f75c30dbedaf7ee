// The picks along the chain: pairs are taken until none is left.
ghost use Rattle.std.specs.Prelude.{◌≡◌, ◌<◌, Some, length};
ghost use Rattle.matching.specs.Definitions.Sizes.{set_rows};
ghost use Rattle.closest.specs.Rows.{lent};
ghost use Rattle.closest.specs.Blocks.{Kept, Fenced};
ghost use Rattle.closest.specs.Chain.{Good, Decided, Stepped, Room, Picked, Takes, Taken};

use crate::blocks::Blocks;
use crate::chain::{Chain, Move, Pick};
use crate::live::Lists;
use crate::rows::Rows;
use crate::sizes::CHAIN;
use matching::sizes::{BLOCKS, ROWS};

// Takes a pair as link n: its rows lose what the link says. (A count goes with `links` from here up to `join`: both sorts' links fill one buffer
// of the caller's, whose length stays that which `Joined` tells of.)
fn pair(
    p: Pick,
    n: usize,
    rows: &Rows,
    left: &mut [u32],
    blocks: &mut Blocks,
    links: &mut [[u32; 4]],
)
    requires takes { Takes (lent rows.now) left.old p × (length left.old ≡ set_rows) × (n < length links.old) }
    requires kept { Kept (lent rows.now) left.old blocks.old.lists blocks.old.ends }
    ensures taken { Taken (lent rows.now) left.old blocks.old.ends p n links.old
        left.new blocks.new.lists blocks.new.ends links.new }
    ensures boxes { blocks.new.boxes ≡ blocks.old.boxes }
{
    let m = left[p.a].min(left[p.b]);
    blocks.spend(p.a, m, rows, left);
    blocks.spend(p.b, m, rows, left);
    links[n] = [rows.ns[p.a], rows.ns[p.b], p.distance, m];
}

// Pushes a row, or takes a pair as link n; gives the number of links then.
fn step(
    m: Move,
    rows: &Rows,
    left: &mut [u32],
    blocks: &mut Blocks,
    chain: &mut Chain,
    links: &mut [[u32; 4]],
    n: usize,
) -> usize
    requires { Good (lent rows.now) left.old blocks.old.lists blocks.old.ends blocks.old.boxes chain.old.rows links.old chain.old.depth n
        × Decided (lent rows.now) left.old chain.old.rows chain.old.depth (Some m) }
    ensures { Stepped (lent rows.now) blocks.new.boxes left.old links.old chain.old.depth n
        left.new blocks.new.lists blocks.new.ends chain.new.rows links.new chain.new.depth result }
{
    match m {
        Move::Push(w) => {
            chain.push(w);
            n
        },
        Move::Take(p) => {
            pair(p, n, rows, left, blocks, links);
            chain.trim(left);
            n + 1
        },
    }
}

// Takes pairs until none is left, and writes their links after the first n, in the order of the picks; gives the number of links then.
fn run(
    rows: &Rows,
    left: &mut [u32],
    blocks: &mut Blocks,
    links: &mut [[u32; 4]],
    n: usize,
) -> usize
    requires lefts { length left.old ≡ set_rows }
    requires fenced { Fenced (lent rows.now) blocks.old.ends blocks.old.boxes }
    requires kept { Kept (lent rows.now) left.old blocks.old.lists blocks.old.ends
        × Room (lent rows.now) left.old links.old n }
    ensures { Picked (lent rows.now) left.old links.old n links.new result }
{
    let mut chain = Chain {
        rows: [0u16; CHAIN],
        depth: 0,
    };
    let mut taken = n;
    while let Some(m) = chain.decide(rows, left, blocks) {
        taken = step(m, rows, left, blocks, &mut chain, links, taken);
    }
    taken
}

// Lists the rows and puts boxes around them, and takes pairs until none is left; their links come after the first n.
pub fn pick(rows: &Rows, left: &mut [u32], links: &mut [[u32; 4]], n: usize) -> usize
    requires { (length left.old ≡ set_rows) × Room (lent rows.now) left.old links.old n }
    ensures { Picked (lent rows.now) left.old links.old n links.new result }
{
    let mut blocks = Blocks {
        lists: Lists {
            listed: [[0u32; 2]; ROWS],
            points: [[0i16; 2]; ROWS],
            spot: [0u16; ROWS],
        },
        ends: [[0u32; 2]; BLOCKS],
        boxes: [[0i16; 4]; BLOCKS],
    };
    blocks.lay(rows.spans.a, rows, left);
    blocks.lay(rows.spans.b, rows, left);
    run(rows, left, &mut blocks, links, n)
}
