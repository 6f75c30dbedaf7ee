// Pairs of a row with a surplus, its owner, and a row of the other master, its partner; and the order of the links.
ghost use Rattle.std.specs.Prelude.{◌<◌};
ghost use Rattle.matching.specs.Definitions.Sizes.{set_rows};

use matching::Set;

// A place in the order of the links: a distance, A's number and B's number.
pub type Order = (u32, u32, u32);

#[derive(Clone, Copy)]
pub struct Pair {
    pub distance: u32,
    owner: u16,
    partner: u16,
    ghost owned: { owner < set_rows },
    ghost partnered: { partner < set_rows },
}

impl Pair {
    pub fn new(distance: u32, owner: usize, partner: usize) -> Pair
        requires { (owner < set_rows) × (partner < set_rows) }
    {
        Pair {
            distance,
            owner: owner as u16,
            partner: partner as u16,
        }
    }

    // The row with the surplus.
    pub fn owner(self) -> usize
        ensures { result < set_rows }
    {
        usize::from(self.owner)
    }

    // The other row.
    pub fn partner(self) -> usize
        ensures { result < set_rows }
    {
        usize::from(self.partner)
    }

    // Of two rows of different masters the lesser is A's,
    pub fn light(self) -> usize
        ensures { result < set_rows }
    {
        self.owner().min(self.partner())
    }

    // and the greater B's.
    pub fn bold(self) -> usize
        ensures { result < set_rows }
    {
        self.owner().max(self.partner())
    }

    // Its place among the links.
    pub fn order(self, set: &Set) -> Order {
        (self.distance, set.ns[self.light()], set.ns[self.bold()])
    }
}

// What a row with a surplus would link to: its candidate, the pair with the nearest row that has something left, and its runner-up,
// that with the next nearest.
#[derive(Clone, Copy)]
pub struct Choice {
    pub candidate: Pair,
    pub runner_up: Option<Pair>,
}

// The place of a link.
pub fn order(link: [u32; 4]) -> Order {
    (link[2], link[0], link[1])
}
