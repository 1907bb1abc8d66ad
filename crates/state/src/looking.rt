// A walk over the temporary table from its last record downward, which stops at the first that touches a
// property.
ghost use Rattle.std.specs.Prelude.{◌≡◌, ◌<◌, Ok};
ghost use Rattle.table.specs.Steps.{Whole};
ghost use Rattle.state.specs.Asking.{slices_of};
ghost use Rattle.state.specs.Touched.{touched_by};

use crate::mention::mentions;
use crate::survey::is_holding;
use numbers::Instant;
use slice::TEMPDELTA;
use table::{count_of, record_at, record_size, stride_of};

// Whether a TEMPDELTA touches a property, with how many records were looked at.
#[derive(Clone, Copy, Debug, PartialEq, Eq)]
pub enum Touched {
    Yes(usize),
    No(usize),
}

// Behind the check of the table: from the last record downward up to and with the first TEMPDELTA that is
// valid and mentions property n.
#[tactic(auto, using(crate::proofs::Touches::looking_down))]
pub(crate) fn look_down(temporary: &[u8], instant: Instant, n: usize) -> Touched
    requires { Whole temporary.now × (n < 8) }
    ensures { Ok result ≡ touched_by instant n (slices_of temporary.now) }
{
    let stride = stride_of(temporary);
    let size = record_size(temporary);
    let count = count_of(temporary) as usize;
    for looked in 1..=count {
        let record = record_at(temporary, size, count - looked);
        if is_holding(record, TEMPDELTA, instant) & mentions(record, stride, n) {
            return Touched::Yes(looked);
        }
    }
    Touched::No(count)
}
