// The slice check: rules 9 to 16, in their order.
ghost use Rattle.std.specs.Prelude.{◌≡◌, ◌+◌, ◌-◌, ◌*◌, ◌≤◌, eqb, length, take, drop};
ghost use Rattle.laws.specs.Lists.{pieces};
ghost use Rattle.laws.specs.Refusals.{refuse};
ghost use Rattle.slice.specs.Record.{record_size};
ghost use Rattle.slice.specs.Refusing.{told};
ghost use Rattle.slice.specs.Check.{checked_reply, number_of, refused, sound, reserved_clear, emptied, counted_tests};
ghost use Rattle.slice.specs.Check.{check_record, reviewed, review_of, check_slice};

use crate::record::{is_cancelled, life_of, period_of, side_takes};
use crate::refusal::Refusal;
use crate::rules::{content_right, times_right};
use octets::{blank, blank8, byte, full8, same};
use property::check_eight;

// The first of records that stand one behind the other that is refused: its place, and its refusal.
#[derive(Clone, Copy, Debug, PartialEq, Eq)]
pub struct Failing {
    pub place: usize,
    pub refusal: Refusal,
}

// The number of an answer: the refusal's own, and 0 where nothing is refused.
#[tactic(auto, unfolding(crate::specs::Check::checked_reply))]
pub fn number_of(checked: Result<(), Refusal>) -> u8
    ensures { result ≡ number_of (told checked) }
{
    match checked {
        Ok(()) => 0,
        Err(refusal) => refusal.number(),
    }
}

// Whether s is `head` bytes and then eight properties of `stride` bytes each, and no more.
fn is_sized(s: &[u8], head: usize, stride: usize) -> bool
    ensures { result ≡ eqb (length s.now) (head + 8 * stride) }
{
    let size = stride
        .checked_mul(8)
        .and_then(|eight| eight.checked_add(head));
    size == Some(s.len())
}

// Whether flag bits 1 to 7 and bytes 24 to 31 of a record are zero.
#[tactic(auto, unfolding(crate::specs::Check::reserved_clear))]
fn reserved_clear(record: &[u8]) -> bool
    ensures { result ≡ reserved_clear «record».now }
{
    (byte(record, 1) < 2) & blank8(record, 24)
}

// Whether a record has no times and no properties, as a cancelled one must.
#[tactic(auto, using(crate::proofs::Stages::emptied_is))]
fn is_emptied(record: &[u8], stride: usize) -> bool
    requires { length «record».now ≡ record_size stride }
    ensures { result ≡ emptied stride «record».now }
{
    full8(record, 8) & full8(record, 16) & blank(&record[32..])
}

// Rules 14 to 16, on a record that is not cancelled.
#[tactic(auto, using(crate::proofs::View::counted_found))]
fn check_counted(record: &[u8], stride: usize) -> Result<(), Refusal>
    requires { length «record».now ≡ record_size stride }
    ensures { told result ≡ refuse refused (counted_tests stride «record».now) sound }
{
    let mentions = check_eight(&record[32..], stride).map_err(|_| Refusal::PropertyLayout)?;
    let kind = byte(record, 0);
    let life = life_of(record);
    if !times_right(kind, period_of(record), life) {
        return Err(Refusal::Times);
    }
    if !content_right(kind, life, mentions == 8, 0 < mentions) {
        return Err(Refusal::Content);
    }
    Ok(())
}

// Rules 11 to 16, on a record of `stride` bytes a property, against a side. Bytes that are no such
// record are refused with 9.
#[tactic(auto, using(crate::proofs::Stages::record_is, crate::proofs::Stages::rules_are))]
pub fn check_record(record: &[u8], stride: usize, side: u8) -> Result<(), Refusal>
    ensures { checked_reply (told result) ≡ checked_reply (check_record stride side «record».now) }
{
    if !is_sized(record, 32, stride) {
        return Err(Refusal::SliceLength);
    }
    if !side_takes(side, byte(record, 0)) {
        return Err(Refusal::Kind);
    }
    if !reserved_clear(record) {
        return Err(Refusal::RecordNotZero);
    }
    if !is_cancelled(record) {
        return check_counted(record, stride);
    }
    if !is_emptied(record, stride) {
        return Err(Refusal::CancelledNotBlank);
    }
    Ok(())
}

// Rules 11 to 16, on `count` records of `size` bytes, one behind the other, against a side. What is no
// record of `stride` bytes a property is refused with 9.
pub fn check_records(
    bytes: &[u8],
    size: usize,
    count: usize,
    stride: usize,
    side: u8,
) -> Result<(), Failing>
    ensures { reviewed result ≡ review_of stride side (pieces size count bytes.now) }
{
    let mut rest = bytes;
    for place in 0..count {
        let (front, behind) = rest.split_at(size.min(rest.len()));
        check_record(front, stride, side).map_err(|refusal| Failing { place, refusal })?;
        rest = behind;
    }
    Ok(())
}

// The slice check, rules 9 to 16, on a delivered slice of `stride` bytes a property, against a feature
// and a side.
#[tactic(auto, using(crate::proofs::Stages::slice_is, crate::proofs::Stages::slice_past10))]
pub fn check_slice(slice: &[u8], stride: usize, feature: &[u8], side: u8) -> Result<(), Refusal>
    ensures { checked_reply (told result) ≡ checked_reply (check_slice stride feature.now side slice.now) }
{
    if !is_sized(slice, 48, stride) {
        return Err(Refusal::SliceLength);
    }
    if !same(&slice[0..16], feature) {
        return Err(Refusal::OtherFeature);
    }
    match check_records(&slice[16..], slice.len() - 16, 1, stride, side) {
        Ok(()) => Ok(()),
        Err(failing) => Err(failing.refusal),
    }
}
