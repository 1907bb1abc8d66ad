// The derived baselines of a feature, as a table of its own. The function answers for every table and
// buffer, and asks nothing of its caller.
#![tactic(auto)]

mod counting;
mod derivation;
mod drawing;
mod line;
mod noting;
mod sweeping;

pub use derivation::derive;
