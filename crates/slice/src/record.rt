// The fields of a record, read from its own bytes.
ghost use Rattle.std.specs.Prelude.{◌≡◌};
ghost use Rattle.slice.specs.Record.{of_side, cancelled_of, correction_of, period_of, life_of, key_of, key_less, same_key};

use numbers::{CorrectionNumber, Instant, SequenceNumber};
use octets::{be16, be32, byte};

// The kinds of a slice, as bytes: the fields of a record, and its key, answer for every byte.
pub const BASELINE: u8 = 1;

pub const PERMDELTA: u8 = 2;

pub const TEMPDELTA: u8 = 3;

// The sides, as bytes too: the permanent table and the temporary table.
pub const PERMANENT: u8 = 0;

pub const TEMPORARY: u8 = 1;

// What a table is ordered by: the kind, then the sequence number.
#[derive(Clone, Copy, Debug, PartialEq, Eq, PartialOrd, Ord)]
pub struct Key {
    pub kind: u8,
    pub sequence: SequenceNumber,
}

// From begin on, before end. The begin of a PERMDELTA is its instant.
#[derive(Clone, Copy, Debug, PartialEq, Eq)]
pub struct Period {
    pub begin: Instant,
    pub end: Instant,
}

// The feature's life time, as far as the slice gives it.
#[derive(Clone, Copy, Debug, PartialEq, Eq)]
pub struct Life {
    pub begin: Instant,
    pub end: Instant,
}

impl Key {
    // Whether this key comes before the other: by kind, then by sequence number.
    #[tactic(auto, unfolding(crate::specs::Record::key_less, laws::specs::Orders::lex_less, numbers::specs::Numbers::numbers))]
    pub fn precedes(self, other: Key) -> bool
        ensures { result ≡ key_less self other }
    {
        self < other
    }

    // Whether the two are one key.
    #[tactic(auto, unfolding(crate::specs::Record::same_key, numbers::specs::Numbers::same_sequence))]
    pub fn is(self, other: Key) -> bool
        ensures { result ≡ same_key self other }
    {
        self == other
    }
}

// Whether a side takes a kind.
#[tactic(auto, unfolding(crate::specs::Record::of_side))]
pub fn side_takes(side: u8, kind: u8) -> bool
    ensures { result ≡ of_side side kind }
{
    match side {
        PERMANENT => matches!(kind, BASELINE | PERMDELTA),
        TEMPORARY => kind == TEMPDELTA,
        _ => false,
    }
}

// Whether a record is cancelled.
pub fn is_cancelled(record: &[u8]) -> bool
    ensures { result ≡ cancelled_of «record».now }
{
    byte(record, 1) % 2 == 1
}

// The correction number of a record.
pub fn correction_of(record: &[u8]) -> CorrectionNumber
    ensures { result ≡ correction_of «record».now }
{
    CorrectionNumber(be16(record, 2))
}

// The key of a record.
pub fn key_of(record: &[u8]) -> Key
    ensures { result ≡ key_of «record».now }
{
    Key {
        kind: byte(record, 0),
        sequence: SequenceNumber(be32(record, 4)),
    }
}

// The period of a record.
pub fn period_of(record: &[u8]) -> Period
    ensures { result ≡ period_of «record».now }
{
    Period {
        begin: Instant(be32(record, 8)),
        end: Instant(be32(record, 12)),
    }
}

// The life of a record.
pub fn life_of(record: &[u8]) -> Life
    ensures { result ≡ life_of «record».now }
{
    Life {
        begin: Instant(be32(record, 16)),
        end: Instant(be32(record, 20)),
    }
}
