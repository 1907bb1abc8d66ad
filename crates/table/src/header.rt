// The header of a table and the places of its records.
ghost use Rattle.std.specs.Prelude.{◌≡◌, ◌+◌};
ghost use Rattle.slice.specs.Record.{record_size};
ghost use Rattle.table.specs.Header.{lettered, side_of, count_of, stride_of, room_of, place_of, record_at};

use octets::{be16, byte};

// Whether a table begins with its letters.
pub fn is_lettered(table: &[u8]) -> bool
    ensures { result ≡ lettered table.now }
{
    table.starts_with(b"TSL")
}

// The side of a table, 0 for one that is too short to have one.
pub fn side_of(table: &[u8]) -> u8
    ensures { result ≡ side_of table.now }
{
    byte(table, 3)
}

// The record count in a table's header, 0 for one that is too short to have it.
pub fn count_of(table: &[u8]) -> u16
    ensures { result ≡ count_of table.now }
{
    be16(table, 6)
}

// How many bytes a property has in a table, by its version.
pub fn stride_of(table: &[u8]) -> usize
    ensures { result ≡ stride_of table.now }
{
    24
}

// How many bytes a record has in a table: 32, and those of its eight properties.
pub fn record_size(table: &[u8]) -> usize
    ensures { result ≡ record_size (stride_of table.now) }
{
    32 + 8 * stride_of(table)
}

// How many records of a size a table has room for: the lesser of 256 and those that fit. Records of no
// bytes have no room.
#[tactic(auto, unfolding(crate::specs::Header::header))]
pub fn room_of(table: &[u8], size: usize) -> usize
    ensures { result ≡ room_of size table.now }
{
    if size == 0 {
        return 0;
    }
    (table.len().saturating_sub(32) / size).min(256)
}

// Record i of a table whose records have a size, as a part of it; an empty part at its front where the
// table has no room for such a record.
#[tactic(auto, using(crate::proofs::Records::record_fits), unfolding(crate::specs::Header::header))]
pub fn record_at(table: &[u8], size: usize, i: usize) -> &[u8]
    ensures bytes { result.now ≡ record_at size i table.now }
    ensures place { result.ref_ptr ≡ (table.entry.ref_ptr.0, place_of size i table.now + table.entry.ref_ptr.1) }
{
    if i < room_of(table, size) {
        let at = 32 + i * size;
        &table[at..at + size]
    } else {
        &table[..0]
    }
}
