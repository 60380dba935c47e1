// The sequence theorem in sentences about literal blocks, as one table under one statement. Each sentence is drawn from the theorem, and
// each claim of the theorem gives at least one, so a weaker theorem would not give them. It has no code.
#![tactic(auto)]
