// No code: calls made one after another (document 02, Q-14), and the theory of them.
#![tactic(auto)]
