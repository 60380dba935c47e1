// A log of command blocks: document 01, "Examples" (the replay program). Its lines, the text that is printed for them, and that this is
// the reference model's text. It has no code; `replay_lines` answers lines by it.
#![tactic(auto)]
