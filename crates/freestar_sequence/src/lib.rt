// Sequences of messages on a Wi.Freestar radio's settings: document 02, Ask 11. `execute` follows the reference model, so every claim of the
// theorem on sequences holds of it. It has no code.
#![tactic(auto)]
