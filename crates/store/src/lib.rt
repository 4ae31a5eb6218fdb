// The public calls on one lent frame. None of them asks anything of its caller.
#![tactic(auto)]

pub mod erase;
pub mod format;
pub mod info;
pub mod look;
pub mod put;
