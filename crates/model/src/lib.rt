// No code stands here: specs/ says what a frame means, and proofs/ has the theory of it.
#![tactic(auto)]
