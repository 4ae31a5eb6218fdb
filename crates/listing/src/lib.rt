// No code: what a listing is (document 02, Q-1), and the theory of it.
#![tactic(auto)]
