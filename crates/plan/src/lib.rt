// What a put and an erase need, read at the end of their descent and compared with the room before anything is written.
#![tactic(auto)]

pub mod erase;
pub mod put;
pub mod run;
