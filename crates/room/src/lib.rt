// What a frame gives out and takes back (document 01, "What a call needs and frees"): bodies and extents, and whether there is
// room for them.
#![tactic(auto)]

pub mod fit;
pub mod heap;
pub mod left;
pub mod link;
