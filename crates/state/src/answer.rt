// The permanent state and the snapshot, written as a record.
ghost use Rattle.std.specs.Prelude.{◌≡◌, ℕ, ◌<◌, Ok, length, get_or};
ghost use Rattle.std.specs.Bool.{OnTrue};
ghost use Rattle.slice.specs.Refusing.{told};
ghost use Rattle.table.specs.Header.{stride_of};
ghost use Rattle.table.specs.Rules.{check_table};
ghost use Rattle.table.specs.declared.check.Sides.TheVariants.{Temporary};
ghost use Rattle.table.specs.Steps.{Whole};
ghost use Rattle.history.specs.Permanent.{permanent_at};
ghost use Rattle.history.specs.Snapshot.{overlaid};
ghost use Rattle.state.specs.Asking.{slices_of, check_both, permanent_state_of, snapshot_of};
ghost use Rattle.state.specs.Asking.{outcome_reply, buffered, after_state, after_snapshot};
ghost use Rattle.state.specs.Steps.{Walkable, coming, coming_at, left_of};

use crate::anchor::settle;
use crate::overlay::overlay;
use crate::survey::survey_permanent;
use crate::writing::put_state;
use numbers::Instant;
use octets::same;
use slice::Refusal;
use table::{Sides, check_table, record_size};

// The check of a permanent and a temporary table: 1 to 7 of each, then 8 where they name different
// features.
#[tactic(auto, using(crate::proofs::Stages::checking_both))]
pub(crate) fn check_both(permanent: &[u8], temporary: &[u8]) -> Result<(), Refusal>
    ensures { told result ≡ check_both permanent.now temporary.now }
{
    check_table(permanent, Sides::Permanent)?;
    check_table(temporary, Sides::Temporary)?;
    if !same(&permanent[8..24], &temporary[8..24]) {
        return Err(Refusal::DifferentFeatures);
    }
    Ok(())
}

// What comes on a state, of each property its place in the temporary table and one: for a snapshot what is
// valid there; else nothing, 0.
fn passing_of(temporary: &[u8], instant: Instant, is_snapshot: bool) -> [usize; 8]
    requires { Whole temporary.now }
    ensures { (length result ≡ 8)
        × ((q : ℕ) → q < 8 → get_or result q 0 ≡ coming_at is_snapshot instant temporary.now q) }
{
    if is_snapshot {
        return overlay(temporary, instant);
    }
    [0; 8]
}

// Behind the check of the tables: writes the state at an instant, or the snapshot, with what is valid in the
// temporary table. Refused, with every byte as it was: 19, 23, and then as the state stands.
#[tactic(auto, using(crate::proofs::Stages::writing), unfolding(crate::specs::Asking::misfits))]
fn write_state(
    permanent: &[u8],
    temporary: &[u8],
    instant: Instant,
    record: &mut [u8],
    is_snapshot: bool,
) -> Result<(), Refusal>
    requires tables { Walkable permanent.now × Whole temporary.now }
    requires sound { OnTrue is_snapshot (check_table Temporary temporary.now ≡ Ok tt) }
    ensures answer { told result
        ≡ left_of permanent.now instant «record».old (permanent_at instant (slices_of permanent.now)) }
    ensures buffer { «record».new ≡ buffered (told result) (stride_of permanent.now) instant
        (overlaid (coming is_snapshot instant temporary.now) (permanent_at instant (slices_of permanent.now)))
        «record».old }
{
    if instant.is_none() {
        return Err(Refusal::InstantOrProperty);
    }
    if record.len() != record_size(permanent) {
        return Err(Refusal::BufferSize);
    }
    let found = survey_permanent(permanent, instant, 0, 8);
    let start = settle(permanent, instant, found)?;
    let passing = passing_of(temporary, instant, is_snapshot);
    put_state(
        record,
        permanent,
        temporary,
        instant,
        start,
        found.latest,
        passing,
    );
    Ok(())
}

// Writes the permanent state at an instant into a record of the table's size. Refused, with every byte as
// it was: 1 to 7 for the table, 19 for no instant, 23 for a record of another size, 21 for two anchors, 20
// where no state is known, 22 where the feature is withdrawn.
#[tactic(auto, using(crate::proofs::Stages::asking_state))]
pub fn permanent_state(permanent: &[u8], instant: Instant, record: &mut [u8]) -> Result<(), Refusal>
    ensures answer { outcome_reply (told result) ≡ outcome_reply (permanent_state_of permanent.now instant «record».old) }
    ensures buffer { «record».new ≡ after_state (told result) permanent.now instant «record».old }
{
    check_table(permanent, Sides::Permanent)?;
    write_state(permanent, permanent, instant, record, false)
}

// Writes the snapshot at an instant into a record of the tables' size: the permanent state with the
// TEMPDELTAs that are valid then. Refused, with every byte as it was: 1 to 7 for the permanent table, 1 to 7
// for the temporary one, 8 for different features, 19 for no instant, 23 for a record of another size, 21
// for two anchors, 20 where no state is known, 22 where the feature is withdrawn.
#[tactic(auto, using(crate::proofs::Stages::asking_snapshot))]
pub fn snapshot(
    permanent: &[u8],
    temporary: &[u8],
    instant: Instant,
    record: &mut [u8],
) -> Result<(), Refusal>
    ensures answer { outcome_reply (told result)
        ≡ outcome_reply (snapshot_of permanent.now temporary.now instant «record».old) }
    ensures buffer { «record».new ≡ after_snapshot (told result) permanent.now temporary.now instant
        «record».old }
{
    check_both(permanent, temporary)?;
    write_state(permanent, temporary, instant, record, true)
}
