// Where the state at an instant starts: its anchor, and whether the feature is withdrawn.
ghost use Rattle.std.specs.Prelude.{◌≡◌, ◌<◌, length, get_or};
ghost use Rattle.slice.specs.Refusing.{told};
ghost use Rattle.slice.specs.Record.{record_size, view_of};
ghost use Rattle.table.specs.Header.{count_of};
ghost use Rattle.table.specs.Steps.{Whole};
ghost use Rattle.history.specs.Parts.{tells};
ghost use Rattle.state.specs.Steps.{Stored, nothing, one_more, Below, after_start, origin_of, life_at, found_from, standing_of};

use crate::mention::{Latest, Mark, gives};
use crate::survey::Survey;
use numbers::{Instant, SequenceNumber};
use slice::{Life, Refusal, key_of, life_of, period_of};
use table::{record_at, record_size, stride_of};

// None, one by its place, or more.
#[derive(Clone, Copy, Debug, PartialEq, Eq)]
pub enum Few {
    Zero,
    One(usize),
    More,
}

// An anchor: whether it is a BASELINE, its record's place, its begin and its sequence number.
#[derive(Clone, Copy)]
pub struct Start {
    pub based: bool,
    pub place: usize,
    pub begin: Instant,
    pub sequence: SequenceNumber,
}

// One more, at a place.
pub(crate) fn tallied(few: Few, place: usize) -> Few
    ensures { result ≡ one_more place few }
{
    match few {
        Few::Zero => Few::One(place),
        Few::One(_) | Few::More => Few::More,
    }
}

// Whether a mention comes after an anchor.
#[tactic(auto, unfolding(crate::specs::Steps::after_start, history::specs::Snapshot::instants))]
fn is_after(start: Start, mark: Mark) -> bool
    ensures { result ≡ after_start start mark }
{
    if start.based {
        return start.begin.precedes(mark.instant);
    }
    start.begin.precedes(mark.instant)
        | (start.begin.is(mark.instant) & start.sequence.precedes(mark.sequence))
}

// Who tells a part last: the place and one of the record of its latest mention, where that comes after
// the anchor; else the anchor's own; 0 where nobody does.
#[tactic(auto, unfolding(crate::specs::Steps::origin_of))]
pub(crate) fn origin(anchor: &[u8], stride: usize, start: Start, mark: Mark, part: usize) -> usize
    requires { (length anchor.now ≡ record_size stride) × ((part < 10) × (start.place < 256)) }
    ensures { result ≡ origin_of start (tells part (view_of stride anchor.now)) mark }
{
    if (mark.from != 0) & is_after(start, mark) {
        return mark.from;
    }
    if gives(anchor, stride, part) {
        return start.place + 1;
    }
    0
}

// The life time that a record gives, by its place and one; none where there is no record.
pub(crate) fn life_at(permanent: &[u8], size: usize, from: usize) -> Life
    ensures { result ≡ life_at size permanent.now from }
{
    if from == 0 {
        return Life {
            begin: Instant::none(),
            end: Instant::none(),
        };
    }
    life_of(record_at(permanent, size, from - 1))
}

// The state that starts from a record: its anchor, or 22 where the feature is withdrawn.
#[tactic(auto, using(crate::proofs::Walks::read_here), unfolding(crate::specs::Steps::settling))]
fn begun(
    permanent: &[u8],
    instant: Instant,
    mentions: Latest,
    based: bool,
    place: usize,
) -> Result<Start, Refusal>
    requires { (length mentions.marks ≡ 10) × Stored permanent.now place }
    ensures { told result ≡ found_from instant permanent.now (get_or mentions.marks 9 nothing) based place }
{
    let stride = stride_of(permanent);
    let size = record_size(permanent);
    let anchor = record_at(permanent, size, place);
    let start = Start {
        based,
        place,
        begin: period_of(anchor).begin,
        sequence: key_of(anchor).sequence,
    };
    let from = origin(anchor, stride, start, mentions.marks[9], 9);
    let end = life_at(permanent, size, from).end;
    if !end.is_none() & end.at_most(instant) {
        return Err(Refusal::Withdrawn);
    }
    Ok(start)
}

// The anchor of the state at an instant, from what a survey found: 21 for two, 20 for none, 22 for one
// whose feature is withdrawn.
pub(crate) fn settle(permanent: &[u8], instant: Instant, found: Survey) -> Result<Start, Refusal>
    requires marks { length found.latest.marks ≡ 10 }
    requires whole { Whole permanent.now }
    requires bases { Below (count_of permanent.now) found.bases }
    requires openings { Below (count_of permanent.now) found.openings }
    ensures { told result ≡ standing_of instant permanent.now found.bases found.openings found.latest.marks }
{
    match (found.bases, found.openings) {
        (Few::Zero, Few::Zero) => Err(Refusal::NoState),
        (Few::One(place), _) => begun(permanent, instant, found.latest, true, place),
        (Few::Zero, Few::One(place)) => begun(permanent, instant, found.latest, false, place),
        (Few::More, _) | (Few::Zero, Few::More) => Err(Refusal::TwoAnchors),
    }
}
