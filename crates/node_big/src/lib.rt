// The two inner kinds that are looked up by index. They have no field in common but the count, so each has functions of its own.
#![tactic(auto)]

pub mod node256;
pub mod node48;
