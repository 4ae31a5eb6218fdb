// An inner body of any kind, as an ascending list of bytes and children. Whoever calls from above sees no kind's layout.
#![tactic(auto)]

pub mod carry;
pub mod change;
pub mod look;
pub mod visit;
