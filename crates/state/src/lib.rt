// What is known of a feature at an instant: its permanent state, its snapshot, one property, and whether
// anything temporary touches one. Each function answers for every table, instant and buffer, and none asks
// anything of its caller.
#![tactic(auto)]

mod anchor;
mod answer;
mod front;
mod looking;
mod mention;
mod overlay;
mod question;
mod survey;
mod touching;
mod writing;

pub use answer::{permanent_state, snapshot};
pub use looking::Touched;
pub use question::{Place, Source, locate, property, source_of};
pub use touching::touched;
