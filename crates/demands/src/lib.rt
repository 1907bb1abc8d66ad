// No code: what the library promises as a whole, over the definitions of the floors below. proofs/Demands.antt is the page to read.
#![tactic(auto)]
