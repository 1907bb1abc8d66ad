// The exports for C: each hands its call to crate timeslices, under the same name and the same promise.
#![tactic(auto)]

ghost use Rattle.std.specs.Prelude.{◌≡◌};
ghost use Rattle.table.specs.Arriving.{creation_of, creation_reply, created, arrival_of, arrival_reply, arrived_at};
ghost use Rattle.state.specs.Asking.{permanent_state_of, snapshot_of, outcome_reply, after_state, after_snapshot};
ghost use Rattle.state.specs.Asking.{place_of, place_reply};
ghost use Rattle.state.specs.Touched.{touched_of, touched_reply};
ghost use Rattle.baselines.specs.Deriving.{derivation_of, derivation_reply, after_deriving};
ghost use Rattle.timeslices.specs.Answers.{instant_of, numbers_of, part_of};
ghost use Rattle.text.specs.Listing.{listing_of, put_of, listing_reply, after_put};

use timeslices::{Answer, Part};

// What `timeslices::tsl_new_table` answers and writes, for C.
#[unsafe(no_mangle)]
pub extern "C" fn tsl_new_table(table: &mut [u8], side: u8, feature: &[u8; 16]) -> Answer
    ensures answer { result ≡ numbers_of (creation_reply (creation_of table.old side)) }
    ensures buffer { table.new ≡ created (creation_of table.old side) table.old side
        feature.now }
{
    timeslices::tsl_new_table(table, side, feature)
}

// What `timeslices::tsl_arrive` answers and writes, for C.
#[unsafe(no_mangle)]
pub extern "C" fn tsl_arrive(table: &mut [u8], slice: &[u8]) -> Answer
    ensures answer { result ≡ numbers_of (arrival_reply (arrival_of table.old slice.now)) }
    ensures buffer { table.new ≡ arrived_at table.old slice.now }
{
    timeslices::tsl_arrive(table, slice)
}

// What `timeslices::tsl_permanent_state` answers and writes, for C.
#[unsafe(no_mangle)]
pub extern "C" fn tsl_permanent_state(permanent: &[u8], instant: u32, record: &mut [u8]) -> Answer
    ensures answer { result
        ≡ numbers_of (outcome_reply (permanent_state_of permanent.now (instant_of instant) «record».old)) }
    ensures buffer { «record».new
        ≡ after_state (permanent_state_of permanent.now (instant_of instant) «record».old)
        permanent.now (instant_of instant) «record».old }
{
    timeslices::tsl_permanent_state(permanent, instant, record)
}

// What `timeslices::tsl_snapshot` answers and writes, for C.
#[unsafe(no_mangle)]
pub extern "C" fn tsl_snapshot(
    permanent: &[u8],
    temporary: &[u8],
    instant: u32,
    record: &mut [u8],
) -> Answer
    ensures answer { result
        ≡ numbers_of
        (outcome_reply (snapshot_of permanent.now temporary.now (instant_of instant) «record».old)) }
    ensures buffer { «record».new ≡ after_snapshot
        (snapshot_of permanent.now temporary.now (instant_of instant) «record».old)
        permanent.now temporary.now (instant_of instant) «record».old }
{
    timeslices::tsl_snapshot(permanent, temporary, instant, record)
}

// What `timeslices::tsl_property` answers and writes, for C.
#[unsafe(no_mangle)]
pub extern "C" fn tsl_property(
    permanent: &[u8],
    temporary: &[u8],
    instant: u32,
    property: u8,
) -> Part
    ensures { result ≡ part_of permanent.now temporary.now
        (place_reply (place_of permanent.now temporary.now (instant_of instant) property)) }
{
    timeslices::tsl_property(permanent, temporary, instant, property)
}

// What `timeslices::tsl_touched` answers and writes, for C.
#[unsafe(no_mangle)]
pub extern "C" fn tsl_touched(temporary: &[u8], instant: u32, property: u8) -> Answer
    ensures { result ≡ numbers_of (touched_reply (touched_of temporary.now (instant_of instant) property)) }
{
    timeslices::tsl_touched(temporary, instant, property)
}

// What `timeslices::tsl_derive` answers and writes, for C.
#[unsafe(no_mangle)]
pub extern "C" fn tsl_derive(permanent: &[u8], output: &mut [u8]) -> Answer
    ensures answer { result ≡ numbers_of (derivation_reply (derivation_of permanent.now output.old)) }
    ensures buffer { output.new ≡ after_deriving (derivation_of permanent.now output.old)
        permanent.now output.old }
{
    timeslices::tsl_derive(permanent, output)
}

// What `timeslices::tsl_listing` answers and writes, for C.
#[unsafe(no_mangle)]
pub extern "C" fn tsl_listing(permanent: &[u8], text: &mut [u8]) -> Answer
    ensures answer { result ≡ numbers_of (listing_reply (put_of (listing_of permanent.now) text.old)) }
    ensures buffer { text.new ≡ after_put (put_of (listing_of permanent.now) text.old)
        (listing_of permanent.now) text.old }
{
    timeslices::tsl_listing(permanent, text)
}
