// The arrival of a slice: its record is put in its place, takes the stored one's room, or changes nothing.
ghost use Rattle.std.specs.Prelude.{◌≡◌, [], ◌+◌, ◌*◌, ◌≤◌, ◌<◌, length, get_or};
ghost use Rattle.slice.specs.Record.{record_size};
ghost use Rattle.slice.specs.Refusing.{told};
ghost use Rattle.laws.specs.Lists.{inserted_at, replaced_at};
ghost use Rattle.table.specs.Header.{count_of, stride_of, room_of, records_of, written};
ghost use Rattle.table.specs.Arriving.{record_of, filing_of, arrival_of, arrival_reply, changed, after};
ghost use Rattle.table.specs.Steps.{Roomy, Ordered, answer_to};

use crate::check::{Sides, check_table};
use crate::header::{count_of, record_at, record_size, room_of, side_of, stride_of};
use crate::stored::Records;
use octets::{open_gap, put, put16, same};
use slice::{Refusal, check_slice, correction_of, key_of};

// What an accepted arrival answers.
#[derive(Clone, Copy, Debug, PartialEq, Eq)]
pub enum Arrival {
    Added,
    Replaced,
    Superseded,
    Repeat,
}

// Puts a record in as the one at a place, and the later ones one place up.
#[tactic(auto, using(crate::proofs::Records::record_fits, crate::proofs::Records::room_most))]
fn insert(table: &mut [u8], size: usize, at: usize, record: &[u8])
    requires { (at ≤ count_of table.old) × (count_of table.old < room_of size table.old)
        × (length «record».now ≡ size) }
    ensures { table.new
        ≡ written table.old (inserted_at at «record».now (records_of size table.old)) }
{
    let count = count_of(table);
    let from = 32 + at * size;
    let to = 32 + usize::from(count) * size;
    put16(table, 6, count + 1);
    open_gap(table, from, to, size);
    put(table, from, record);
}

// The answer to a record whose key the one at a place has: a higher correction takes its room.
#[tactic(auto, using(crate::proofs::Answers::correcting))]
fn correct(table: &mut [u8], size: usize, at: usize, record: &[u8]) -> Result<Arrival, Refusal>
    requires { (at < count_of table.old) × Roomy size table.old × (length «record».now ≡ size) }
    ensures answer { told result ≡ answer_to «record».now (get_or (records_of size table.old) at []) }
    ensures buffer { table.new
        ≡ changed (told result) table.old (replaced_at at «record».now (records_of size table.old)) }
{
    let held = record_at(table, size, at);
    let stored = correction_of(held);
    let sent = correction_of(record);
    if stored.precedes(sent) {
        put(table, 32 + at * size, record);
        Ok(Arrival::Replaced)
    } else if sent.precedes(stored) {
        Ok(Arrival::Superseded)
    } else if same(record, held) {
        Ok(Arrival::Repeat)
    } else {
        Err(Refusal::OtherBytes)
    }
}

// Files a record that passed the slice check in a table that passed its own: 17, 18, or an accepted
// answer.
#[tactic(auto, using(crate::proofs::Answers::filing))]
fn file(table: &mut [u8], size: usize, record: &[u8]) -> Result<Arrival, Refusal>
    requires { Ordered size table.old × (length «record».now ≡ size) }
    ensures answer { told result
        ≡ filing_of (room_of size table.old) «record».now (records_of size table.old) }
    ensures buffer { table.new ≡ after (told result) size table.old «record».now }
{
    match Records::of(table, size).search(key_of(record)) {
        Ok(at) => correct(table, size, at, record),
        Err(at) => {
            if usize::from(count_of(table)) == room_of(table, size) {
                return Err(Refusal::TableFull);
            }
            insert(table, size, at, record);
            Ok(Arrival::Added)
        }
    }
}

// Takes a delivered slice into a table. Refused, with every byte as it was: 1 to 7 for the table, 9 to 16
// for the slice, 17 for other bytes under a correction that is stored, 18 for a new record where the
// table is full. Added: the record stands in its place, the later ones have moved up, and the count is
// one more. Replaced: it stands in the room of the stored one. Superseded and Repeat change nothing.
pub fn arrive(table: &mut [u8], slice: &[u8]) -> Result<Arrival, Refusal>
    ensures answer { arrival_reply (told result) ≡ arrival_reply (arrival_of table.old slice.now) }
    ensures buffer { table.new ≡ after (told result) (record_size (stride_of table.old)) table.old
        (record_of slice.now) }
{
    check_table(table, Sides::Both)?;
    let stride = stride_of(table);
    let side = side_of(table);
    check_slice(slice, stride, &table[8..24], side)?;
    let size = record_size(table);
    file(table, size, &slice[16..])
}
