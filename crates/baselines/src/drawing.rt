// The second sweep: the records of the derived baselines, drawn into the output one behind the other.
ghost use Rattle.std.specs.Prelude.{◌≡◌, ◌∷◌, ◌++◌, ◌≤◌, length};
ghost use Rattle.laws.specs.Lists.{joined};
ghost use Rattle.octets.specs.Writing.{bytes_of, pasted};
ghost use Rattle.slice.specs.Record.{record_size};
ghost use Rattle.table.specs.Header.{stride_of};
ghost use Rattle.history.specs.State.{State};
ghost use Rattle.baselines.specs.Carried.{Carries, line_size, record_of, Lined, unknown_state, GoesOn};
ghost use Rattle.baselines.specs.Steps.{Sweepable, FitsIn, drawn_record, DrawsKnown};
ghost use Rattle.baselines.specs.Deriving.{derived_records};

use crate::counting::head;
use crate::line::{apply_where, put_unknown};
use crate::sweeping::Sweep;
use events::place_of;
use numbers::{Instant, SequenceNumber};
use octets::{byte, put, put32};
use slice::{BASELINE, Period, life_of};
use table::{record_at, record_size, stride_of};

// Makes the record of a state that of a BASELINE: its kind, its sequence number and its period.
fn put_front(record: &mut [u8], sequence: SequenceNumber, period: Period)
    requires { 16 ≤ length «record».old }
    ensures { «record».new ≡ pasted «record».old 0
        (1 ∷ 0 ∷ 0 ∷ 0 ∷ bytes_of 4 sequence.0 ++ (bytes_of 4 period.begin.0 ++ bytes_of 4 period.end.0)) }
{
    put(record, 0, &[1, 0, 0, 0]);
    put32(record, 4, sequence.0);
    put32(record, 8, period.begin.0);
    put32(record, 12, period.end.0);
}

// Draws the BASELINE of a state over a period, from one change instant to the next: the record of its line says it.
fn draw(record: &mut [u8], line: &[u8], stride: usize, sequence: SequenceNumber, period: Period)
    requires { (length «record».old ≡ record_size stride) × (length line.now ≡ line_size stride) }
    ensures { (s : State) → Carries stride s (record_of stride line.now)
        → «record».new ≡ drawn_record stride sequence.0 period.begin period.end s }
{
    let size = record.len();
    record.copy_from_slice(&line[..size]);
    put_front(record, sequence, period);
}

// Both lines of a sweep, each the record of a state with a place behind it: that of the BASELINE that holds, and that of
// the first opening.
#[derive(Drop)]
struct Lines<'a> {
    base: &'a mut [u8],
    line: &'a mut [u8],
    stride: usize,
    ghost sized: { Lined stride base.now line.now },
}

impl Lines<'_> {
    // Draws the BASELINE of the state that is known over a period, from a change instant until the next one: that of the
    // line of the BASELINE that holds, or else that of the opening.
    fn draw_known(&self, record: &mut [u8], s: Sweep, sequence: SequenceNumber, period: Period)
        requires { length «record».old ≡ record_size self.now.stride }
        ensures { DrawsKnown self.now.stride s period.begin self.now.base.now self.now.line.now sequence.0 period.end
            «record».new }
    {
        if s.is_based(period.begin) {
            draw(record, self.base, self.stride, sequence, period);
        } else {
            draw(record, self.line, self.stride, sequence, period);
        }
    }

    // Carries both lines on by the record of an event: a BASELINE begins its own; a PERMDELTA is applied to that of the
    // BASELINE that holds, unless it begins there too, and to that of the first opening, which it may be.
    fn carry(&mut self, record: &[u8], s: Sweep, t: Instant)
        requires { length «record».now ≡ record_size self.old.stride }
        ensures stride { self.new.stride ≡ self.old.stride }
        ensures lines { GoesOn self.old.stride s «record».now t self.old.base.now self.old.line.now self.new.base.now
            self.new.line.now }
    {
        if byte(record, 0) == BASELINE {
            put(self.base, 0, record);
        } else {
            let opens = (0 < s.openings) | !life_of(record).begin.is_none();
            apply_where(
                s.is_based(t) & !s.begin.is(t),
                self.base,
                record,
                self.stride,
            );
            apply_where(opens, self.line, record, self.stride);
        }
    }
}

// Draws the records of the derived baselines of a sound table behind the header of an output, by the table's
// events in order.
#[inline(always)]
fn draw_events(permanent: &[u8], events: &[u64], lines: &mut Lines<'_>, output: &mut [u8])
    requires sound { Sweepable permanent.now events.now }
    requires room { FitsIn permanent.now output.old }
    requires stride { lines.old.stride ≡ stride_of permanent.now }
    requires line { Carries (stride_of permanent.now) unknown_state (record_of (stride_of permanent.now) lines.old.line.now) }
    ensures { output.new ≡ pasted output.old 32 (joined (derived_records permanent.now)) }
{
    let size = record_size(permanent);
    let mut s = Sweep::start();
    let mut at = 0;
    let mut t = head(events, 0);
    let mut count = 0;
    while !t.is_none() {
        let next = head(events, at);
        if next.is(t) {
            let place = place_of(events[at]);
            if place < 256 {
                let record = record_at(permanent, size, place);
                lines.carry(record, s, t);
                s = s.pass(record, t);
            }
            at += 1;
        } else {
            let end = s.next_of(t, next);
            if s.is_known(t) {
                let from = 32 + count * size;
                count += 1;
                let sequence = SequenceNumber(count as u32);
                let record = &mut output[from..from + size];
                lines.draw_known(record, s, sequence, Period { begin: t, end });
            }
            t = end;
        }
    }
}

// Draws the records of the derived baselines of a sound table behind the header of an output.
pub(crate) fn draw_all(permanent: &[u8], events: &[u64], output: &mut [u8])
    requires sound { Sweepable permanent.now events.now }
    requires room { FitsIn permanent.now output.old }
    ensures { output.new ≡ pasted output.old 32 (joined (derived_records permanent.now)) }
{
    let stride = stride_of(permanent);
    let long = record_size(permanent) + stride;
    let mut base = [0; 320];
    let mut line = [0; 320];
    put_unknown(&mut line[..long], stride);
    let mut lines = Lines {
        base: &mut base[..long],
        line: &mut line[..long],
        stride,
    };
    draw_events(permanent, events, &mut lines, output);
}
