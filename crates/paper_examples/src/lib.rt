// The proved examples of document 01, as one table under one statement about the definitions. It has no code.
#![tactic(auto)]
