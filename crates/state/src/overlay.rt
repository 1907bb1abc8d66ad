// One pass over the temporary table: the last mention of each property.
ghost use Rattle.std.specs.Prelude.{◌≡◌, ℕ, ◌<◌, length, get_or};
ghost use Rattle.table.specs.Steps.{Whole};
ghost use Rattle.history.specs.Parts.{latest_valid};
ghost use Rattle.state.specs.Asking.{slices_of};
ghost use Rattle.state.specs.Steps.{place_and_one};

use crate::mention::mentions;
use crate::survey::is_holding;
use numbers::Instant;
use slice::TEMPDELTA;
use table::{count_of, record_at, record_size, stride_of};

// The one pass over a temporary table: of each property the last TEMPDELTA that is valid and mentions it, by
// its place and one; 0 where there is none. They stand in rising order of sequence number, so that none is
// compared with another.
#[tactic(auto, using(crate::proofs::Turns::sized_at))]
pub(crate) fn overlay(temporary: &[u8], instant: Instant) -> [usize; 8]
    requires { Whole temporary.now }
    ensures { (length result ≡ 8)
        × ((q : ℕ) → q < 8 → get_or result q 0 ≡ place_and_one (latest_valid q instant (slices_of temporary.now))) }
{
    let stride = stride_of(temporary);
    let size = record_size(temporary);
    let count = count_of(temporary) as usize;
    let mut places = [0usize; 8];
    for i in 0..count {
        let record = record_at(temporary, size, i);
        if is_holding(record, TEMPDELTA, instant) {
            for (n, place) in places.iter_mut().enumerate() {
                *place = if mentions(record, stride, n) {
                    i + 1
                } else {
                    *place
                };
            }
        }
    }
    places
}
