// The listing of a feature's derived baselines, as text. Each function answers for every input and buffer,
// and none asks anything of its caller.
#![tactic(auto)]

mod lines;
mod listing;

pub use listing::{Needs, list, say};
