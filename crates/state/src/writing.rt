// A state written as a record: kind 4, its times, and the eight properties.
ghost use Rattle.std.specs.Prelude.{◌≡◌, ◌+◌, ◌*◌, ◌≤◌, ◌<◌, ◌++◌, length, replicate};
ghost use Rattle.octets.specs.Writing.{pasted};
ghost use Rattle.table.specs.Header.{count_of, stride_of};
ghost use Rattle.table.specs.Steps.{Whole};
ghost use Rattle.state.specs.Written.{state_kind, state_times, nil_unknown};
ghost use Rattle.state.specs.Steps.{Stored, Told, Ready, life_from, said_at, property_by, property_from, run_of};

use crate::anchor::{Start, life_at, origin};
use crate::mention::{Latest, Mark};
use numbers::Instant;
use octets::{put, put32};
use slice::Life;
use table::{record_at, record_size, stride_of};

// The life times of a state: of the records that tell them last.
#[tactic(auto, using(crate::proofs::Turns::anchor_at))]
fn life_of_state(permanent: &[u8], start: Start, mentions: Latest) -> Life
    requires { (length mentions.marks ≡ 10) × Stored permanent.now start.place }
    ensures { result ≡ life_from permanent.now start mentions.marks }
{
    let stride = stride_of(permanent);
    let size = record_size(permanent);
    let anchor = record_at(permanent, size, start.place);
    let born = origin(anchor, stride, start, mentions.marks[8], 8);
    let gone = origin(anchor, stride, start, mentions.marks[9], 9);
    Life {
        begin: life_at(permanent, size, born).begin,
        end: life_at(permanent, size, gone).end,
    }
}

// Writes the four times of a state: from an instant on, without end, and its life.
fn put_times(record: &mut [u8], instant: Instant, life: Life)
    requires { 32 ≤ length «record».old }
    ensures { «record».new ≡ pasted «record».old 8 (state_times instant life) }
{
    put32(record, 8, instant.0);
    put32(record, 12, Instant::none().0);
    put32(record, 16, life.begin.0);
    put32(record, 20, life.end.0);
}

// Writes what comes before the properties.
fn put_head(record: &mut [u8], instant: Instant, life: Life)
    requires { 32 ≤ length «record».old }
    ensures { «record».new
        ≡ pasted «record».old 0 (state_kind ++ (state_times instant life ++ replicate 8 0)) }
{
    put(record, 0, &[4, 0, 0, 0, 0, 0, 0, 0]);
    put_times(record, instant, life);
    put(record, 24, &[0, 0, 0, 0, 0, 0, 0, 0]);
}

// Writes a property that nothing mentions: nil, unknown.
#[tactic(auto, using(crate::proofs::Pasting::unknown_cut))]
fn put_unknown(record: &mut [u8], at: usize, stride: usize)
    requires { (2 ≤ stride) × (stride ≤ 32) }
    ensures { «record».new ≡ pasted «record».old at (nil_unknown stride) }
{
    let mut unknown = [0u8; 32];
    unknown[0] = 1;
    unknown[1] = 4;
    put(record, at, &unknown[..stride]);
}

// Writes property n as the record of a place and one says it; nil, unknown where there is no record.
#[tactic(auto, using(laws::proofs::Pieces::piece_within, crate::proofs::Turns::sized_at))]
fn put_property(record: &mut [u8], table: &[u8], n: usize, from: usize)
    requires { (n < 8) × (Whole table.now × (from ≤ count_of table.now)) }
    ensures { «record».new
        ≡ pasted «record».old (32 + n * stride_of table.now) (said_at table.now n from) }
{
    let stride = stride_of(table);
    let at = 32 + n * stride;
    if from == 0 {
        put_unknown(record, at, stride);
    } else {
        let source = record_at(table, record_size(table), from - 1);
        put(record, at, &source[at..at + stride]);
    }
}

// Writes property n from the table whose record mentioned it last.
#[tactic(auto, using(crate::proofs::Turns::anchor_at))]
fn put_latest(
    record: &mut [u8],
    permanent: &[u8],
    temporary: &[u8],
    start: Start,
    under: Mark,
    over: usize,
    n: usize,
)
    requires { (n < 8) × Told permanent.now temporary.now start under over }
    ensures { «record».new
        ≡ pasted «record».old (32 + n * stride_of permanent.now)
        (property_by permanent.now temporary.now start under over n) }
{
    if over != 0 {
        put_property(record, temporary, n, over);
    } else {
        let stride = stride_of(permanent);
        let anchor = record_at(permanent, record_size(permanent), start.place);
        put_property(
            record,
            permanent,
            n,
            origin(anchor, stride, start, under, n),
        );
    }
}

// Writes the eight properties.
fn put_properties(
    record: &mut [u8],
    permanent: &[u8],
    temporary: &[u8],
    start: Start,
    mentions: Latest,
    passing: [usize; 8],
)
    requires { Ready «record».old permanent.now temporary.now start mentions.marks passing }
    ensures { «record».new
        ≡ pasted «record».old 32
        (run_of (property_from permanent.now temporary.now start mentions.marks passing) 8) }
{
    for n in 0..8 {
        put_latest(
            record,
            permanent,
            temporary,
            start,
            mentions.marks[n],
            passing[n],
            n,
        );
    }
}

// Writes the state that starts from an anchor, with the latest mentions of both tables, as a record.
pub(crate) fn put_state(
    record: &mut [u8],
    permanent: &[u8],
    temporary: &[u8],
    instant: Instant,
    start: Start,
    mentions: Latest,
    passing: [usize; 8],
)
    requires { Ready «record».old permanent.now temporary.now start mentions.marks passing }
    ensures { «record».new
        ≡ state_kind ++ (state_times instant (life_from permanent.now start mentions.marks)
        ++ (replicate 8 0
        ++ run_of (property_from permanent.now temporary.now start mentions.marks passing) 8)) }
{
    put_head(record, instant, life_of_state(permanent, start, mentions));
    put_properties(record, permanent, temporary, start, mentions, passing);
}
