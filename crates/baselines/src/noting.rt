// The events of a table: the begins of its records with their places, and the life ends of its BASELINEs.
ghost use Rattle.std.specs.Prelude.{◌≡◌, ◌++◌, ◌≤◌, length, take};
ghost use Rattle.slice.specs.Check.{sound};
ghost use Rattle.table.specs.Rules.{check_table};
ghost use Rattle.table.specs.declared.check.Sides.TheVariants.{Permanent};
ghost use Rattle.state.specs.Asking.{slices_of};
ghost use Rattle.baselines.specs.Noting.{begins, life_ends, noted};

use events::event_of;
use numbers::Instant;
use octets::byte;
use slice::{BASELINE, life_of, period_of};
use table::{count_of, record_at, record_size};

// The place of an event that is no record's begin.
pub(crate) const NOWHERE: u16 = 65535;

// Notes the begin of each record that has one, as they stand, and answers how many.
fn note_begins(permanent: &[u8], events: &mut [u64]) -> usize
    requires { (check_table Permanent permanent.now ≡ sound) × (length events.old ≡ 512) }
    ensures few { result ≤ 256 }
    ensures list { take result events.new ≡ begins 0 (slices_of permanent.now) }
{
    let size = record_size(permanent);
    let mut n = 0;
    for i in 0..count_of(permanent) {
        let begin = period_of(record_at(permanent, size, i as usize)).begin;
        if !begin.is_none() {
            events[n] = event_of(begin, i);
            n += 1;
        }
    }
    n
}

// Notes the life end of each BASELINE that has one behind the events so far, and answers how many there are.
fn note_ends(permanent: &[u8], events: &mut [u64], from: usize) -> usize
    requires { (check_table Permanent permanent.now ≡ sound) × ((length events.old ≡ 512) × (from ≤ 256)) }
    ensures few { result ≤ 512 }
    ensures list { take result events.new ≡ take from events.old ++ life_ends 0 (slices_of permanent.now) }
{
    let size = record_size(permanent);
    let mut n = from;
    for i in 0..count_of(permanent) {
        let record = record_at(permanent, size, i as usize);
        if byte(record, 0) != BASELINE {
            return n;
        }
        let gone = life_of(record).end;
        if !gone.is_none() {
            events[n] = event_of(gone, NOWHERE);
            n += 1;
        }
    }
    n
}

// Notes the events of a table, and answers how many there are.
#[tactic(auto, unfolding(crate::specs::Noting::noted))]
pub(crate) fn note(permanent: &[u8], events: &mut [u64]) -> usize
    requires { (check_table Permanent permanent.now ≡ sound) × (length events.old ≡ 512) }
    ensures few { result ≤ 512 }
    ensures list { take result events.new ≡ noted (slices_of permanent.now) }
{
    let n = note_begins(permanent, events);
    note_ends(permanent, events, n)
}
