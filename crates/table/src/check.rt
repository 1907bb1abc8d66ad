// The check of a table: rules 1 to 7, in their order.
ghost use Rattle.std.specs.Prelude.{◌≡◌};
ghost use Rattle.slice.specs.Refusing.{told};
ghost use Rattle.slice.specs.Check.{checked_reply};
ghost use Rattle.table.specs.Rules.{takes, check_table};

use crate::header::{count_of, is_lettered, record_size, room_of, side_of, stride_of};
use crate::stored::Records;
use octets::{be16, blank8};
use slice::Refusal;

// The sides that a call takes.
#[derive(Clone, Copy, Debug, PartialEq, Eq)]
pub enum Sides {
    Permanent,
    Temporary,
    Both,
}

// Whether a call that takes some sides takes this one.
pub fn takes_side(sides: Sides, side: u8) -> bool
    ensures { result ≡ takes sides side }
{
    match sides {
        Sides::Permanent => side == slice::PERMANENT,
        Sides::Temporary => side == slice::TEMPORARY,
        Sides::Both => matches!(side, slice::PERMANENT | slice::TEMPORARY),
    }
}

// The check of a table, rules 1 to 7, by a call that takes some sides.
#[tactic(auto, unfolding(crate::specs::Rules::check_table, crate::specs::Rules::table_tests))]
pub fn check_table(table: &[u8], sides: Sides) -> Result<(), Refusal>
    ensures { checked_reply (told result) ≡ checked_reply (check_table sides table.now) }
{
    if table.len() < 32 {
        return Err(Refusal::TableTooShort);
    }
    if !(is_lettered(table) && takes_side(sides, side_of(table))) {
        return Err(Refusal::LettersOrSide);
    }
    if be16(table, 4) != 1 {
        return Err(Refusal::Version);
    }
    if !blank8(table, 24) {
        return Err(Refusal::HeaderNotZero);
    }
    let size = record_size(table);
    if room_of(table, size) < usize::from(count_of(table)) {
        return Err(Refusal::CountOverRoom);
    }
    let records = Records::of(table, size);
    if records.is_faulty(stride_of(table), side_of(table)) {
        return Err(Refusal::RecordInTable);
    }
    if !records.is_in_order() {
        return Err(Refusal::RecordOrder);
    }
    Ok(())
}
