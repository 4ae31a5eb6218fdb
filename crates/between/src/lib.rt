// A frame between two good states: definitions and laws only, which the edits of put and erase share (docs/LAYERS.md).
#![tactic(auto)]
