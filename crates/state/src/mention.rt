// The latest mention of each part of a state. A part is a property, 0 to 7, the life begin, 8, or the
// life end, 9.
ghost use Rattle.std.specs.Prelude.{◌≡◌, ℕ, ◌<◌, length, get_or};
ghost use Rattle.slice.specs.Record.{record_size, view_of};
ghost use Rattle.history.specs.Parts.{tells};
ghost use Rattle.state.specs.Steps.{nothing, later_of};

use numbers::{Instant, SequenceNumber};
use octets::byte;
use slice::life_of;

// A mention: the record's place and one, 0 where there is none; the instant at which it applies; its
// sequence number.
#[derive(Clone, Copy)]
pub struct Mark {
    pub from: usize,
    pub instant: Instant,
    pub sequence: SequenceNumber,
}

// The latest mention of each of the ten parts.
#[derive(Clone, Copy)]
pub struct Latest {
    pub marks: [Mark; 10],
}

// No mention of any part.
pub(crate) fn no_mention() -> Latest
    ensures { (length result.marks ≡ 10) × ((q : ℕ) → get_or result.marks q nothing ≡ nothing) }
{
    let none = Mark {
        from: 0,
        instant: Instant(0),
        sequence: SequenceNumber(0),
    };
    Latest { marks: [none; 10] }
}

// Whether a record of `stride` bytes a property mentions property n.
#[tactic(auto, using(laws::proofs::Pieces::piece_within, crate::proofs::Views::tells_property))]
pub(crate) fn mentions(record: &[u8], stride: usize, n: usize) -> bool
    requires { (length «record».now ≡ record_size stride) × (n < 8) }
    ensures { result ≡ tells n (view_of stride «record».now) }
{
    byte(record, 32 + n * stride) != 0
}

// Whether a record of `stride` bytes a property tells a part.
#[tactic(auto, unfolding(history::specs::Parts::tells, slice::specs::Record::view_of))]
pub(crate) fn gives(record: &[u8], stride: usize, part: usize) -> bool
    requires { (length «record».now ≡ record_size stride) × (part < 10) }
    ensures { result ≡ tells part (view_of stride «record».now) }
{
    match part {
        0..8 => mentions(record, stride, part),
        8 => !life_of(record).begin.is_none(),
        _ => !life_of(record).end.is_none(),
    }
}

// Of two mentions the later one, where the new one is one at all.
#[tactic(auto, unfolding(crate::specs::Steps::later_of, history::specs::Permanent::turn_less, laws::specs::Orders::lex_less))]
pub(crate) fn later(old: Mark, new: Mark, yes: bool) -> Mark
    ensures { result ≡ later_of yes new old }
{
    let behind = old.instant.precedes(new.instant)
        | (old.instant.is(new.instant) & old.sequence.precedes(new.sequence));
    if yes && ((old.from == 0) | behind) {
        new
    } else {
        old
    }
}
