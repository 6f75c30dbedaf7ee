// What is lent, judged place by place, once the tables are in a set of rows; and what the calls write.
#![tactic(auto)]

pub mod list;
pub mod perform;
pub mod spare;
pub mod write;
