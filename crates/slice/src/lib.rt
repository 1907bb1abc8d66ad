// A time slice: the fields of its record, its key, period and life, and the slice check. Each function
// answers for every slice of bytes, and none asks anything of its caller.
#![tactic(auto)]

mod check;
mod record;
mod refusal;
mod rules;

pub use check::{Failing, check_record, check_records, check_slice, number_of};
pub use record::{
    BASELINE, Key, Life, PERMANENT, PERMDELTA, Period, TEMPDELTA, TEMPORARY, correction_of,
    is_cancelled, key_of, life_of, period_of, side_takes,
};
pub use refusal::Refusal;
