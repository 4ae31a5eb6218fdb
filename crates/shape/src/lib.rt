// Exact tests of single things in a frame whose bytes are arbitrary: each answers true exactly if document 01's rule for
// that thing holds, and writes nothing. The frame check combines them.
#![tactic(auto)]

pub mod header;
pub mod leaf;
pub mod prefix;
