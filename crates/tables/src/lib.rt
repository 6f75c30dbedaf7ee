// Bytes to nodes and links, and back: all that touches the bytes of a table, a list or an edit.
// The contracts cite specs/Definitions, which reads like document 01's 'Rows and buffers'.
#![tactic(auto)]

pub mod bands;
pub mod edits;
pub mod faults;
pub mod fields;
pub mod find;
pub mod rows;
pub mod sizes;
