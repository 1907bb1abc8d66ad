// The table of a feature: its header and records, rules 1 to 7, the new table and the arrival of a slice.
// Each function answers for every table and slice of bytes, and none asks anything of its caller.
#![tactic(auto)]

mod arrival;
mod check;
mod create;
mod header;
mod stored;

pub use arrival::{Arrival, arrive};
pub use check::{Sides, check_table};
pub use create::new_table;
pub use header::{count_of, record_at, record_size, room_of, side_of, stride_of};
