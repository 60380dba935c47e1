// The reference model of a Wi.Freestar radio's settings: document 02, Ask 11. It says in terms of cells what each message reads, sets and
// is answered with, and knows no struct. It has no code.
#![tactic(auto)]
