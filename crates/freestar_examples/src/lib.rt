// The proved examples of document 02, Ask 11, as one table under one statement about the definitions, and sentences about literal messages that
// are drawn from the laws. It has no code.
#![tactic(auto)]
