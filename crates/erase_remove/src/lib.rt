// Erase of a key that is there, where what stands around the Leaf's node stays: "the Leaf is freed and its extent's size goes to X. A
// Node256 that falls to 37, a Node48 to 12, a Node16 to 3 needs a body of the next smaller kind and frees its own." And of the only record.
#![tactic(auto)]

pub mod leaf;
pub mod only;
pub mod remove;
pub mod shrink;
