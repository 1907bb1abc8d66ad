// A sweep over the records of a table in order of their begins: what it has seen by an instant, from times
// alone.
ghost use Rattle.std.specs.Prelude.{◌≡◌, ◌≤◌};
ghost use Rattle.slice.specs.Record.{period_of, life_of};
ghost use Rattle.history.specs.Sweep.{nothing};
ghost use Rattle.numbers.specs.Numbers.{before};
ghost use Rattle.history.specs.State.{new_time};
ghost use Rattle.baselines.specs.Sweeping.{times_of, begun_with, changed_with, passed_with, is_known, is_two, next_with};

use numbers::Instant;
use octets::byte;
use slice::{BASELINE, life_of, period_of};

// What a sweep has seen: the begin and the end of the BASELINE that began last, the life end that its line
// tells, the life end that the line of the first opening PERMDELTA tells, how many have opened, and whether a
// BASELINE began while another held.
#[derive(Clone, Copy)]
pub struct Sweep {
    pub begin: Instant,
    pub end: Instant,
    pub gone: Instant,
    pub left: Instant,
    pub openings: usize,
    pub two: bool,
}

// A life end where it is given, or else the one before.
#[tactic(auto, unfolding(history::specs::State::new_time))]
fn newer(new: Instant, old: Instant) -> Instant
    ensures { result ≡ new_time new old }
{
    if new.is_none() { old } else { new }
}

impl Sweep {
    // A sweep that has seen nothing: an end at 0 is before no instant.
    pub(crate) fn start() -> Sweep
        ensures { result ≡ times_of nothing }
    {
        let none = Instant::none();
        Sweep {
            begin: none,
            end: Instant(0),
            gone: none,
            left: none,
            openings: 0,
            two: false,
        }
    }

    // The sweep behind a BASELINE that begins at an instant: the one before it must be without end or over, and
    // must not begin there too.
    #[tactic(auto, unfolding(crate::specs::Sweeping::begun_with, history::specs::Sweep::meets))]
    pub(crate) fn begin_base(self, record: &[u8], t: Instant) -> Sweep
        ensures { result ≡ begun_with self t (period_of «record».now).end (life_of «record».now).end }
    {
        let meets = self.begin.is(t) | (!self.end.is_none() & t.precedes(self.end));
        Sweep {
            begin: t,
            end: period_of(record).end,
            gone: life_of(record).end,
            two: self.two | meets,
            ..self
        }
    }

    // The sweep behind a PERMDELTA of an instant: its life end goes to both lines, to that of a BASELINE unless it
    // begins there; the first to open begins the other line.
    #[tactic(auto, unfolding(crate::specs::Sweeping::changed_with))]
    pub(crate) fn change(self, record: &[u8], t: Instant) -> Sweep
        requires { self.openings ≤ 512 }
        ensures { result ≡ changed_with self t (life_of «record».now) }
    {
        let life = life_of(record);
        let gone = if self.begin.is(t) {
            self.gone
        } else {
            newer(life.end, self.gone)
        };
        let left = if self.openings == 0 {
            life.end
        } else {
            newer(life.end, self.left)
        };
        let opens = if life.begin.is_none() { 0 } else { 1 };
        Sweep {
            gone,
            left,
            openings: self.openings + opens,
            ..self
        }
    }

    // The sweep behind the record of an event: a BASELINE that begins, or a PERMDELTA.
    #[tactic(auto, unfolding(crate::specs::Sweeping::passed_with))]
    pub(crate) fn pass(self, record: &[u8], t: Instant) -> Sweep
        requires { self.openings ≤ 512 }
        ensures { result ≡ passed_with self «record».now t }
    {
        if byte(record, 0) == BASELINE {
            self.begin_base(record, t)
        } else {
            self.change(record, t)
        }
    }

    // Whether a BASELINE holds at an instant: the one that began last.
    pub(crate) fn is_based(self, t: Instant) -> bool
        ensures { result ≡ before t self.end }
    {
        t.precedes(self.end)
    }

    // Whether there is a permanent state at an instant, where there are no two anchors: none stands above every
    // instant, so that a life end of none withdraws nothing.
    #[tactic(auto, unfolding(crate::specs::Sweeping::is_known))]
    pub(crate) fn is_known(self, t: Instant) -> bool
        ensures { result ≡ is_known self t }
    {
        if self.is_based(t) {
            t.precedes(self.gone)
        } else {
            (self.openings == 1) & t.precedes(self.left)
        }
    }

    // Whether there are two anchors at an instant.
    #[tactic(auto, unfolding(crate::specs::Sweeping::is_two))]
    pub(crate) fn is_two(self, t: Instant) -> bool
        ensures { result ≡ is_two self t }
    {
        self.two | (!self.is_based(t) & (1 < self.openings))
    }

    // The next change instant: that of the next event, or the end of the BASELINE that holds.
    #[tactic(auto, unfolding(crate::specs::Sweeping::next_with))]
    pub(crate) fn next_of(self, t: Instant, next: Instant) -> Instant
        ensures { result ≡ next_with self t next }
    {
        if self.is_based(t) & !next.precedes(self.end) {
            self.end
        } else {
            next
        }
    }
}
