// What functions share that take a state by reference and update it in place: document 01, "lends it for the length of a command".
// It has no code: its laws are about the code of such functions. What they take of the struct is `Held`, which the crates of the C entries
// give of theirs.
#![tactic(auto)]
