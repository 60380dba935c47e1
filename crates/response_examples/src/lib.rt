// What the reader of responses says of literal responses, and sentences that the theorem on it gives. It has no code.
#![tactic(auto)]
