// The owner's demands as promises of functions that make the calls. `demands` shows them of whatever keeps the promises of the public
// calls; here the calls are made, on any lent bytes and with no `requires`, and what they give and leave is what was demanded. So the
// promises can be met: a demand over a promise that no call keeps would not pass here.
#![tactic(auto)]

pub mod change;
pub mod orders;
pub mod readings;
pub mod sequences;
