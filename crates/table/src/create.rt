// The new table.
ghost use Rattle.std.specs.Prelude.{◌≡◌};
ghost use Rattle.slice.specs.Refusing.{told};
ghost use Rattle.table.specs.Arriving.{creation_of, creation_reply, created};

use crate::check::{Sides, takes_side};
use octets::put;
use slice::Refusal;

// Makes a table of a side and a feature that holds no record: writes its 32 bytes of header and nothing
// else. Refused, with every byte as it was: 1 where they do not fit, 2 for a side that is none.
#[tactic(auto, unfolding(crate::specs::Arriving::arriving))]
pub fn new_table(table: &mut [u8], side: u8, feature: &[u8; 16]) -> Result<(), Refusal>
    ensures answer { creation_reply (told result) ≡ creation_reply (creation_of table.old side) }
    ensures buffer { table.new ≡ created (told result) table.old side feature.now }
{
    if table.len() < 32 {
        return Err(Refusal::TableTooShort);
    }
    if !takes_side(Sides::Both, side) {
        return Err(Refusal::LettersOrSide);
    }
    let front = [b'T', b'S', b'L', side, 0, 1, 0, 0];
    put(table, 0, &front);
    put(table, 8, feature);
    put(table, 24, &[0; 8]);
    Ok(())
}
