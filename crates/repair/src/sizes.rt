// The sizes that a repair alone works with; the others are matching's. specs/Sizes.antt has those that contracts and proofs cite.
// The rows with a surplus that are kept: with more a repair gives up.
pub const SURPLUS: usize = 64;

// What a repair may cost: so much at first, and so much more for each old link that is passed. A unit is half a look through a block.
pub const ADVANCE: usize = 32;

pub const SHARE: usize = 4;

// The row whose number stands for both nodes in the place past every link of a join. Any row would do; with this one a repair of old links that
// no join has gives what it gave before its pairs had fields.
pub const LAST: usize = 895;

// Rows with a surplus that are looked at for a unit.
pub const LOOK: usize = 16;

// The turns of a repair.
pub const TURNS: usize = 8192;
