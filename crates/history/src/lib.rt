// No code: the Temporality Model on the slices of a feature. specs/ has what a reader must believe, in the words and the order of
// document 01; proofs/ has the laws. It mentions no place in a table and no byte.
#![tactic(auto)]
