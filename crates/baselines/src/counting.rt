// The first sweep: whether two anchors meet, and how many records a derivation has, from times alone.
ghost use Rattle.std.specs.Prelude.{◌≡◌, drop};
ghost use Rattle.slice.specs.Refusing.{told};
ghost use Rattle.slice.specs.Check.{sound};
ghost use Rattle.table.specs.Rules.{check_table};
ghost use Rattle.table.specs.declared.check.Sides.TheVariants.{Permanent};
ghost use Rattle.events.specs.Order.{in_order};
ghost use Rattle.state.specs.Asking.{slices_of};
ghost use Rattle.baselines.specs.Noting.{noted, head_of};
ghost use Rattle.baselines.specs.Steps.{counted_of};

use crate::sweeping::Sweep;
use events::{place_of, time_of};
use numbers::Instant;
use slice::Refusal;
use table::{record_at, record_size};

// The time of the event at a place, or none past the end.
pub(crate) fn head(events: &[u64], at: usize) -> Instant
    ensures { result ≡ head_of (drop at events.now) }
{
    match events.get(at) {
        Some(event) => time_of(*event),
        None => Instant::none(),
    }
}

// How many records the derivation of a sound table has, by its events in order, or that two anchors meet.
pub(crate) fn count_all(permanent: &[u8], events: &[u64]) -> Result<usize, Refusal>
    requires { (check_table Permanent permanent.now ≡ sound) × (events.now ≡ in_order (noted (slices_of permanent.now))) }
    ensures { told result ≡ counted_of permanent.now }
{
    let size = record_size(permanent);
    let mut s = Sweep::start();
    let mut at = 0;
    let mut t = head(events, 0);
    let mut count = 0;
    while !t.is_none() {
        let next = head(events, at);
        if next.is(t) {
            let place = place_of(events[at]);
            if place < 256 {
                s = s.pass(record_at(permanent, size, place), t);
            }
            at += 1;
        } else {
            if s.is_two(t) {
                return Err(Refusal::TwoAnchors);
            }
            if s.is_known(t) {
                count += 1;
            }
            t = s.next_of(t, next);
        }
    }
    Ok(count)
}
