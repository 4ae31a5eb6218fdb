// The bodies of a packed frame (document 01, "The packed image"): each body and extent is written in a lent part of the output that starts
// at its offset, so every writer here writes from place 0 of its part on.
#![tactic(auto)]

pub mod header;
pub mod inner_node;
pub mod leaf;
pub mod prefix;
