// The proved examples of document 02, Ask 10, as one table under one statement about the definitions, and sentences about literal packets that
// are drawn from the laws. It has no code.
#![tactic(auto)]
