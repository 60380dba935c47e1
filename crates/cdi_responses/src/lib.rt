// The responses that a module in a valid state can give, and the theorem on their reader: document 02, Ask 1. It has no code.
#![tactic(auto)]
