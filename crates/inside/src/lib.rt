// No code: where the entries and Leaves of a good frame's tree lie, for those who walk it by its slots.
#![tactic(auto)]
