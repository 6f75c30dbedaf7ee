// The link list: its bytes, and its links as rows (A number, B number, squared distance, amount).
#![tactic(auto)]

pub mod bands;
pub mod compare;
pub mod rows;
pub mod spare;
pub mod zeros;
