// The front of a permanent table, its BASELINEs: those that hold at an instant. One without an end holds
// until the next begins.
ghost use Rattle.std.specs.Prelude.{◌≡◌, ℕ, ◌≤◌, ◌<◌, get_or};
ghost use Rattle.slice.specs.Record.{baseline, Slice, view_of};
ghost use Rattle.table.specs.Header.{count_of};
ghost use Rattle.history.specs.Parts.{begun};
ghost use Rattle.state.specs.Asking.{slices_of};
ghost use Rattle.state.specs.Steps.{Walkable, no_base, closed_by, held_with, bases_from, join_few};

use crate::anchor::{Few, tallied};
use crate::survey::is_counted;
use numbers::Instant;
use octets::byte;
use slice::{BASELINE, Period, period_of};
use table::{count_of, record_at, record_size};

// Of the BASELINEs that have begun by an instant: those that hold by an end of their own, the last begin,
// and those without an end that begin there.
#[derive(Clone, Copy)]
pub struct Bases {
    pub fixed: Few,
    pub last: Instant,
    pub endless: Few,
}

// The front of a permanent table: what its BASELINEs are at an instant, and where it ends.
#[derive(Clone, Copy)]
pub struct Front {
    pub bases: Bases,
    pub end: usize,
}

// No BASELINE yet.
fn no_base() -> Bases
    ensures { result ≡ no_base }
{
    Bases {
        fixed: Few::Zero,
        last: Instant(0),
        endless: Few::Zero,
    }
}

// Whether a record is a BASELINE that is not cancelled and has begun by an instant.
#[tactic(auto, unfolding(history::specs::Parts::begun, slice::specs::Record::view_of))]
fn is_begun(record: &[u8], instant: Instant) -> bool
    ensures { (stride : ℕ) → result ≡ begun instant (view_of stride «record».now) }
{
    is_counted(record, BASELINE) && period_of(record).begin.at_most(instant)
}

// What a begin leaves: it closes those without an end that began before it.
#[tactic(auto, unfolding(crate::specs::Steps::closed_by))]
fn closed_by(bases: Bases, begin: Instant) -> Bases
    ensures { result ≡ closed_by begin bases }
{
    if bases.last.precedes(begin) {
        return Bases {
            last: begin,
            endless: Few::Zero,
            ..bases
        };
    }
    bases
}

// With one that has begun by an instant: it holds by its own end, or without an end from the last begin on.
#[tactic(auto, unfolding(crate::specs::Steps::held_with))]
fn held_with(bases: Bases, period: Period, place: usize, instant: Instant) -> Bases
    ensures { result ≡ held_with instant place period bases }
{
    if !instant.precedes(period.end) {
        return bases;
    }
    if !period.end.is_none() {
        return Bases {
            fixed: tallied(bases.fixed, place),
            ..bases
        };
    }
    if period.begin.is(bases.last) {
        return Bases {
            endless: tallied(bases.endless, place),
            ..bases
        };
    }
    bases
}

// All that hold, as one tally.
pub(crate) fn together(bases: Bases) -> Few
    ensures { result ≡ join_few bases.fixed bases.endless }
{
    match (bases.fixed, bases.endless) {
        (Few::Zero, few) | (few, Few::Zero) => few,
        _ => Few::More,
    }
}

// The front of a permanent table: one pass over its BASELINEs.
pub(crate) fn front_of(permanent: &[u8], instant: Instant) -> Front
    requires { Walkable permanent.now }
    ensures bases { result.bases ≡ bases_from instant 0 no_base (slices_of permanent.now) }
    ensures end { (result.end ≤ count_of permanent.now)
        × ((j : ℕ) (d : Slice) → j < result.end → (get_or (slices_of permanent.now) j d).kind ≤ baseline) }
{
    let size = record_size(permanent);
    let count = count_of(permanent) as usize;
    let mut bases = no_base();
    for place in 0..count {
        let record = record_at(permanent, size, place);
        if BASELINE < byte(record, 0) {
            return Front { bases, end: place };
        }
        if is_begun(record, instant) {
            let period = period_of(record);
            bases = held_with(closed_by(bases, period.begin), period, place, instant);
        }
    }
    Front { bases, end: count }
}
