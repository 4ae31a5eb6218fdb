// A line of the session and its answer (document 01, end of "Worked frames").
#![tactic(auto)]

pub mod step;
