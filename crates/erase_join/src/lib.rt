// Erase of a key whose Leaf stands in a Node4 of two: "A Node4 that falls to one child is freed", and the child takes its place.
#![tactic(auto)]

pub mod finish;
pub mod join;
pub mod lone;
