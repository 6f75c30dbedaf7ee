// Lanes, and the block that encloses their rows.
ghost use Rattle.stability.specs.Lanes.{Enclosed};

use super::blocks::Block;
use super::lanes::Lanes;

#[derive(Clone, Copy)]
pub struct Bounded<'a> {
    pub block: Block,
    pub lanes: &'a Lanes,
    ghost enclosed: { Enclosed block lanes.now },
}
