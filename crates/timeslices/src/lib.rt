// The interface for C: each answer of the library as numbers. Nothing is asked of the caller beyond
// memory that is there. include/timeslices.h says the same in C, and crate timeslices_c exports it.
#![tactic(auto)]

ghost use Rattle.std.specs.Prelude.{◌≡◌};
ghost use Rattle.laws.specs.Replies.{refused_with, accepted_as};
ghost use Rattle.slice.specs.Refusing.{number, told};
ghost use Rattle.slice.specs.Check.{checked_reply};
ghost use Rattle.table.specs.Header.{stride_of};
ghost use Rattle.table.specs.Arriving.{creation_of, creation_reply, created, arrival_of, arrival_reply, arrived_at};
ghost use Rattle.state.specs.Asking.{permanent_state_of, snapshot_of, outcome_reply, after_state, after_snapshot};
ghost use Rattle.state.specs.Asking.{place_of, place_reply};
ghost use Rattle.state.specs.Touched.{touched_of, touched_reply};
ghost use Rattle.baselines.specs.Deriving.{derivation_of, derivation_reply, after_deriving};
ghost use Rattle.timeslices.specs.Answers.{instant_of, numbers_of, part_at, part_of};
ghost use Rattle.text.specs.Listing.{listing_of, put_of, listing_reply, after_put};

use baselines::derive;
use numbers::Instant;
use slice::Refusal;
use state::{Place, Touched, locate, permanent_state, snapshot, touched};
use table::{Arrival, arrive, new_table, stride_of};
use text::{Needs, list};

// An answer as C has it. Kind 0: refused, and `number` says why. The other kinds are each call's own.
#[repr(C)]
#[derive(Clone, Copy)]
pub struct Answer {
    pub kind: u32,
    pub number: u32,
}

impl Answer {
    // An accepted answer: its kind, counted from 1, and its number.
    fn accepted(kind: u32, number: u32) -> Answer
        ensures { result ≡ numbers_of (accepted_as kind number) }
    {
        Answer { kind, number }
    }

    // A refusal, by its number.
    fn refused(refusal: Refusal) -> Answer
        ensures { result ≡ numbers_of (refused_with (number refusal)) }
    {
        Answer {
            kind: 0,
            number: refusal.number() as u32,
        }
    }
}

// Where a property stands, as C has it. Kind 0: refused, and `number` says why; 1 in the permanent table, 2
// in the temporary one, from byte `at` on, `size` bytes; 3 unmentioned. Unused fields are 0.
#[repr(C)]
#[derive(Clone, Copy)]
pub struct Part {
    pub kind: u32,
    pub number: u32,
    pub at: u64,
    pub size: u64,
}

// The numbers of what making a table or writing a state answers: 1 made, or written.
#[tactic(auto, unfolding(slice::specs::Check::checked_reply))]
fn of_writing(answer: Result<(), Refusal>) -> Answer
    ensures { result ≡ numbers_of (checked_reply (told answer)) }
{
    match answer {
        Ok(()) => Answer::accepted(1, 0),
        Err(refusal) => Answer::refused(refusal),
    }
}

// The numbers of what an arrival answers: 1 added, 2 replaced, 3 superseded, 4 a repeat.
#[tactic(auto, unfolding(table::specs::Arriving::arrival_reply))]
fn of_arrival(answer: Result<Arrival, Refusal>) -> Answer
    ensures { result ≡ numbers_of (arrival_reply (told answer)) }
{
    match answer {
        Ok(Arrival::Added) => Answer::accepted(1, 0),
        Ok(Arrival::Replaced) => Answer::accepted(2, 0),
        Ok(Arrival::Superseded) => Answer::accepted(3, 0),
        Ok(Arrival::Repeat) => Answer::accepted(4, 0),
        Err(refusal) => Answer::refused(refusal),
    }
}

// Makes a table of a side and a feature that holds no record: kind 1. Refused: 1 and 2.
pub fn tsl_new_table(table: &mut [u8], side: u8, feature: &[u8; 16]) -> Answer
    ensures answer { result ≡ numbers_of (creation_reply (creation_of table.old side)) }
    ensures buffer { table.new ≡ created (creation_of table.old side) table.old side
        feature.now }
{
    of_writing(new_table(table, side, feature))
}

// Takes a delivered slice into a table: 1 Added, 2 Replaced, 3 Superseded, 4 Repeat. Refused: 1 to 7 and 9
// to 18.
pub fn tsl_arrive(table: &mut [u8], slice: &[u8]) -> Answer
    ensures answer { result ≡ numbers_of (arrival_reply (arrival_of table.old slice.now)) }
    ensures buffer { table.new ≡ arrived_at table.old slice.now }
{
    of_arrival(arrive(table, slice))
}

// Writes the permanent state at an instant into a record of the table's size: kind 1. Refused, with every
// byte as it was: 1 to 7 and 19 to 23.
pub fn tsl_permanent_state(permanent: &[u8], instant: u32, record: &mut [u8]) -> Answer
    ensures answer { result
        ≡ numbers_of (outcome_reply (permanent_state_of permanent.now (instant_of instant) «record».old)) }
    ensures buffer { «record».new
        ≡ after_state (permanent_state_of permanent.now (instant_of instant) «record».old)
        permanent.now (instant_of instant) «record».old }
{
    of_writing(permanent_state(permanent, Instant(instant), record))
}

// Writes the snapshot at an instant into a record of the tables' size: kind 1. Refused, with every byte as
// it was: 1 to 8 and 19 to 23.
pub fn tsl_snapshot(permanent: &[u8], temporary: &[u8], instant: u32, record: &mut [u8]) -> Answer
    ensures answer { result
        ≡ numbers_of
        (outcome_reply (snapshot_of permanent.now temporary.now (instant_of instant) «record».old)) }
    ensures buffer { «record».new ≡ after_snapshot
        (snapshot_of permanent.now temporary.now (instant_of instant) «record».old)
        permanent.now temporary.now (instant_of instant) «record».old }
{
    of_writing(snapshot(permanent, temporary, Instant(instant), record))
}

// A property's part of a table, from a place on.
fn part_at(kind: u32, table: &[u8], place: usize) -> Part
    ensures { result ≡ part_at kind place (stride_of table.now) }
{
    Part {
        kind,
        number: 0,
        at: place as u64,
        size: stride_of(table) as u64,
    }
}

// Which table has the bytes of a property at an instant, and where: 1 permanent, 2 temporary, 3
// unmentioned. Refused: 1 to 8 and 19 to 22.
pub fn tsl_property(permanent: &[u8], temporary: &[u8], instant: u32, property: u8) -> Part
    ensures { result ≡ part_of permanent.now temporary.now
        (place_reply (place_of permanent.now temporary.now (instant_of instant) property)) }
{
    match locate(permanent, temporary, Instant(instant), property) {
        Ok(Place::Permanent(place)) => part_at(1, permanent, place),
        Ok(Place::Temporary(place)) => part_at(2, temporary, place),
        Ok(Place::Unmentioned) => Part {
            kind: 3,
            number: 0,
            at: 0,
            size: 0,
        },
        Err(refusal) => Part {
            kind: 0,
            number: refusal.number() as u32,
            at: 0,
            size: 0,
        },
    }
}

// Whether anything temporary has touched a property at an instant: 1 yes, 2 no, and how many records were
// looked at, from the last downward. Refused: 1 to 7 and 19.
pub fn tsl_touched(temporary: &[u8], instant: u32, property: u8) -> Answer
    ensures { result ≡ numbers_of (touched_reply (touched_of temporary.now (instant_of instant) property)) }
{
    match touched(temporary, Instant(instant), property) {
        Ok(Touched::Yes(looked)) => Answer::accepted(1, looked as u32),
        Ok(Touched::No(looked)) => Answer::accepted(2, looked as u32),
        Err(refusal) => Answer::refused(refusal),
    }
}

// Derives the baselines of a permanent table into the output: kind 1, and their number. Refused, with every
// byte as it was: 1 to 7, 21, 23 and 24.
pub fn tsl_derive(permanent: &[u8], output: &mut [u8]) -> Answer
    ensures answer { result ≡ numbers_of (derivation_reply (derivation_of permanent.now output.old)) }
    ensures buffer { output.new ≡ after_deriving (derivation_of permanent.now output.old)
        permanent.now output.old }
{
    match derive(permanent, output) {
        Ok(count) => Answer::accepted(1, count as u32),
        Err(refusal) => Answer::refused(refusal),
    }
}

// Writes the listing of a permanent table's derived baselines as text: kind 1, and its length. Where the
// buffer is shorter: kind 2, the length that the text needs, and every byte as it was. A refusal is a text.
pub fn tsl_listing(permanent: &[u8], text: &mut [u8]) -> Answer
    ensures answer { result ≡ numbers_of (listing_reply (put_of (listing_of permanent.now) text.old)) }
    ensures buffer { text.new ≡ after_put (put_of (listing_of permanent.now) text.old)
        (listing_of permanent.now) text.old }
{
    match list(permanent, text) {
        Ok(length) => Answer::accepted(1, length as u32),
        Err(Needs(length)) => Answer::accepted(2, length as u32),
    }
}
