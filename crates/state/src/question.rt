// The value of one property: where it stands, and its bytes as a part of a table.
ghost use Rattle.std.specs.Prelude.{◌≡◌, ◌≤◌, ◌<◌, Ok};
ghost use Rattle.laws.specs.OneAnswer.{shown};
ghost use Rattle.slice.specs.Refusing.{told};
ghost use Rattle.table.specs.Header.{count_of};
ghost use Rattle.state.specs.Asking.{place_of, place_reply, source_of, source_reply, handed};
ghost use Rattle.state.specs.Steps.{Stored, place_from, placed_by};

use crate::anchor::{Start, origin, settle};
use crate::answer::check_both;
use crate::mention::Mark;
use crate::overlay::overlay;
use crate::survey::survey_permanent;
use numbers::Instant;
use slice::Refusal;
use table::{record_at, record_size, stride_of};

// Where the bytes of a property begin: at a place of the permanent or of the temporary table, or nowhere.
#[derive(Clone, Copy, Debug, PartialEq, Eq)]
pub enum Place {
    Permanent(usize),
    Temporary(usize),
    Unmentioned,
}

// Which table has a property's bytes.
#[derive(Clone, Copy, Debug, PartialEq, Eq)]
pub enum Source {
    Permanent,
    Temporary,
    Unmentioned,
}

// Where property n of a record begins, by the record's place and one.
fn place_of(table: &[u8], from: usize, n: usize) -> usize
    requires { (0 < from) × ((from ≤ 256) × (n < 8)) }
    ensures { result ≡ place_from table.now from n }
{
    32 + (from - 1) * record_size(table) + 32 + n * stride_of(table)
}

// Where property n begins, by its latest mention in each table.
#[tactic(auto, using(crate::proofs::PropertyPlace::placing), unfolding(crate::specs::Steps::placed_by))]
fn placed(
    permanent: &[u8],
    temporary: &[u8],
    start: Start,
    under: Mark,
    over: usize,
    n: usize,
) -> Place
    requires property { n < 8 }
    requires anchor { Stored permanent.now start.place }
    requires below { under.from ≤ count_of permanent.now }
    requires above { over ≤ 256 }
    ensures { Ok result ≡ placed_by permanent.now temporary.now start under over n }
{
    if over != 0 {
        return Place::Temporary(place_of(temporary, over, n));
    }
    let stride = stride_of(permanent);
    let anchor = record_at(permanent, record_size(permanent), start.place);
    let from = origin(anchor, stride, start, under, n);
    if from != 0 {
        return Place::Permanent(place_of(permanent, from, n));
    }
    Place::Unmentioned
}

// Where the bytes of a property at an instant begin: in the table whose record mentioned it last. Refused:
// 1 to 7 for the permanent table, 1 to 7 for the temporary one, 8 for different features, 19 for no
// instant or a property over 7, 21 for two anchors, 20 where no state is known, 22 where the feature is
// withdrawn.
#[tactic(auto, using(crate::proofs::Stages::asking_place))]
pub fn locate(
    permanent: &[u8],
    temporary: &[u8],
    instant: Instant,
    property: u8,
) -> Result<Place, Refusal>
    ensures { place_reply (told result) ≡ place_reply (place_of permanent.now temporary.now instant property) }
{
    check_both(permanent, temporary)?;
    if instant.is_none() | (7 < property) {
        return Err(Refusal::InstantOrProperty);
    }
    let n = property as usize;
    let found = survey_permanent(permanent, instant, n, n + 1);
    let start = settle(permanent, instant, found)?;
    let passing = overlay(temporary, instant);
    Ok(placed(
        permanent,
        temporary,
        start,
        found.latest.marks[n],
        passing[n],
        n,
    ))
}

// Which table has the bytes of a property at an instant, that nothing mentions it, or why there is no
// answer.
#[tactic(auto, using(crate::proofs::Replies::place_same))]
pub fn source_of(
    permanent: &[u8],
    temporary: &[u8],
    instant: Instant,
    property: u8,
) -> Result<Source, Refusal>
    ensures { source_reply (told result) ≡ source_reply (source_of (place_of permanent.now temporary.now instant property)) }
{
    match locate(permanent, temporary, instant, property)? {
        Place::Permanent(_) => Ok(Source::Permanent),
        Place::Temporary(_) => Ok(Source::Temporary),
        Place::Unmentioned => Ok(Source::Unmentioned),
    }
}

// The bytes of a property at an instant, as a part of the table whose record mentioned it last. Where that
// is refused, or nothing mentions it, an empty part of the permanent table's front.
#[tactic(auto, using(crate::proofs::PropertyPlace::handing))]
pub fn property<'a>(
    permanent: &'a [u8],
    temporary: &'a [u8],
    instant: Instant,
    property: u8,
) -> &'a [u8]
    ensures { shown result ≡ handed (place_of permanent.now temporary.now instant property) permanent.entry
        temporary.entry }
{
    match locate(permanent, temporary, instant, property) {
        Ok(Place::Permanent(at)) => &permanent[at..at + stride_of(permanent)],
        Ok(Place::Temporary(at)) => &temporary[at..at + stride_of(temporary)],
        Ok(Place::Unmentioned) | Err(_) => &permanent[0..0],
    }
}
