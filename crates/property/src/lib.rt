// What a property of a record says: one value of ten cases, read from its bytes, and the check of a
// record's eight properties. Each function answers for every slice, and none asks anything of its caller.
#![tactic(auto)]

ghost use Rattle.std.specs.Prelude.{◌≡◌, ◌&&◌, ◌≤◌, ◌<◌, ◌+◌, ◌*◌, length, drop, eqb, leb};
ghost use Rattle.octets.specs.Bytes.{byte_of, le_of, filled};
ghost use Rattle.property.specs.Value.{is_mention};
ghost use Rattle.property.specs.Layout.{signed, decode_of};
ghost use Rattle.property.specs.Forms.{nil_at, unit_at, held_of, in_range, right_of};
ghost use Rattle.property.specs.Limits.{most_of, later_of, limits_of, limits_for, all_limits, fits_of, reading_of};
ghost use Rattle.property.specs.Eight.{is_good, whole_in, survey_of};

mod double;

use crate::double::{double, is_finite, within};
use octets::{be64, blank8, byte, le64};

// The unit of a length.
#[derive(Clone, Copy, Debug, PartialEq, Eq)]
pub enum LengthUnit {
    M,
    FT,
    KM,
    NM,
}

// A point, in degrees.
#[derive(Clone, Copy, Debug, PartialEq)]
pub struct Position {
    pub latitude: f64,
    pub longitude: f64,
}

// What a property says.
#[derive(Clone, Copy, Debug, PartialEq)]
pub enum Value {
    // The record does not mention the property.
    Unmentioned,
    // Nil, with its reason.
    Inapplicable,
    Missing,
    Template,
    Unknown,
    Withheld,
    Code(u16),
    Number(i32),
    Length(f64, LengthUnit),
    Point(Position),
}

// The place of the first property that breaks the layout.
#[derive(Clone, Copy, Debug, PartialEq, Eq)]
pub struct FirstBad(pub usize);

// What a form may use: the least and the greatest detail, and how many content bytes.
#[derive(Clone, Copy)]
pub struct Row(pub u8, pub u8, pub u8);

// The forms, one row each. What a row leaves unused is zero.
const FORMS: [Row; 6] = [
    Row(0, 0, 0), // 0 not mentioned
    Row(1, 5, 0), // 1 nil: 1 inapplicable, 2 missing, 3 template, 4 unknown, 5 withheld
    Row(0, 0, 2), // 2 code
    Row(0, 0, 4), // 3 whole number
    Row(1, 4, 8), // 4 length: 1 M, 2 FT, 3 KM, 4 NM
    Row(0, 0, 16), // 5 point
];

// A row as limits of numbers: of the detail, and of eight bytes of content and eight more, each read
// with the lowest byte first, so that bytes that are zero make it small.
#[derive(Clone, Copy)]
pub struct Limits {
    pub least: u64,
    pub greatest: u64,
    pub first: u64,
    pub second: u64,
}

// The greatest number of n bytes, and of 8 where n is more.
#[tactic(auto, using(crate::proofs::Rows::most_shifted))]
fn most(n: u8) -> u64
    ensures { result ≡ most_of n }
{
    if n < 8 { (1 << (8 * n)) - 1 } else { u64::MAX }
}

// The limits of a row.
fn limits_of(row: Row) -> Limits
    ensures { result ≡ limits_of row }
{
    let Row(least, greatest, used) = row;
    Limits {
        least: u64::from(least),
        greatest: u64::from(greatest),
        first: most(used),
        second: most(used.saturating_sub(8)),
    }
}

// The limits of every row.
fn all_limits() -> [Limits; 6]
    ensures { result ≡ all_limits }
{
    FORMS.map(limits_of)
}

// Whether three numbers of eight bytes keep limits. The first is form, detail and six bytes that are
// to be zero.
#[tactic(auto, unfolding(crate::specs::Limits::fits_of))]
fn fits(l: Limits, head: u64, first: u64, second: u64) -> bool
    ensures { result ≡ fits_of l head first second }
{
    let detail = head / 256;
    (l.least <= detail) & ((detail <= l.greatest) & ((first <= l.first) & (second <= l.second)))
}

// The nil of a detail.
fn nil_of(detail: u8) -> Value
    ensures { result ≡ nil_at detail }
{
    match detail {
        1 => Value::Inapplicable,
        2 => Value::Missing,
        3 => Value::Template,
        4 => Value::Unknown,
        _ => Value::Withheld,
    }
}

// The unit of a detail.
fn unit_of(detail: u8) -> LengthUnit
    ensures { result ≡ unit_at detail }
{
    match detail {
        1 => LengthUnit::M,
        2 => LengthUnit::FT,
        3 => LengthUnit::KM,
        _ => LengthUnit::NM,
    }
}

// The value of a form and a detail, and of the content as two numbers. What the layout asks is not
// looked at.
#[tactic(auto, using(crate::proofs::Doubles::signed_cast), unfolding(crate::specs::Limits::reading_of))]
fn reading(form: u8, detail: u8, first: u64, second: u64) -> Value
    ensures { result ≡ reading_of form detail first second }
{
    match form {
        0 => Value::Unmentioned,
        1 => nil_of(detail),
        2 => Value::Code((first / 0x1_0000_0000_0000) as u16),
        3 => Value::Number(((first / 0x1_0000_0000) as u32).cast_signed()),
        4 => Value::Length(double(first), unit_of(detail)),
        _ => Value::Point(Position {
            latitude: double(first),
            longitude: double(second),
        }),
    }
}

// The value that the 24 bytes of a property hold, whether or not they keep the layout.
#[tactic(auto, using(crate::proofs::Sound::held_told))]
fn held(p: &[u8]) -> Value
    requires { length p.now ≡ 24 }
    ensures { result ≡ held_of p.now }
{
    reading(byte(p, 0), byte(p, 1), be64(p, 8), be64(p, 16))
}

// Whether a latitude is from -90 to 90 and a longitude from -180 to 180.
#[tactic(auto, using(crate::proofs::Doubles::ninety, crate::proofs::Doubles::one_eighty))]
fn in_range(at: Position) -> bool
    ensures { result ≡ in_range at }
{
    within(at.latitude, 90.0) & within(at.longitude, 180.0)
}

// Whether a value is one that a property may have: what no count of bytes can say.
fn is_right(v: Value) -> bool
    ensures { result ≡ right_of v }
{
    match v {
        Value::Length(x, _) => is_finite(x),
        Value::Point(at) => in_range(at),
        _ => true,
    }
}

// Whether the 24 bytes of a property keep the layout, by the limits of the forms.
fn is_sound(limits: &[Limits; 6], p: &[u8]) -> bool
    requires of_rows { limits.now ≡ all_limits }
    requires whole { length p.now ≡ 24 }
    ensures { result ≡ is_good (decode_of p.now) }
{
    let Some(limits) = limits.get(byte(p, 0) as usize) else {
        return false;
    };
    fits(*limits, le64(p, 0), le64(p, 8), le64(p, 16)) && is_right(held(p))
}

// The value of the 24 bytes of a property, or none where the bytes break the layout or are not 24.
pub fn decode(p: &[u8]) -> Option<Value>
    ensures { result ≡ decode_of p.now }
{
    if p.len() == 24 && is_sound(&all_limits(), p) {
        Some(held(p))
    } else {
        None
    }
}

// Whether a value is a mention: each is but `Unmentioned`.
pub fn is_mention(v: Value) -> bool
    ensures { result ≡ is_mention v }
{
    !matches!(v, Value::Unmentioned)
}

// Whether the 24 bytes of a property are all zero, so that it is not mentioned.
fn is_blank(p: &[u8]) -> bool
    ensures { result ≡ (filled 0 8 p.now 0 && filled 0 16 p.now 8) }
{
    blank8(p, 0) & (blank8(p, 8) & blank8(p, 16))
}

// How many of eight properties of `stride` bytes each are all there.
fn whole_in(len: usize, stride: usize) -> usize
    ensures { result ≡ whole_in len stride }
{
    if stride < 24 || len < 24 {
        return 0;
    }
    ((len - 24) / stride + 1).min(8)
}

// How many of eight properties of `stride` bytes each are mentioned, or the first that breaks the layout. A property
// that is not all there breaks it.
pub fn check_eight(bytes: &[u8], stride: usize) -> Result<usize, FirstBad>
    ensures { result ≡ survey_of stride bytes.now }
{
    let whole = whole_in(bytes.len(), stride);
    let limits = all_limits();
    let mut mentioned = 0;
    for i in 0..whole {
        let p = &bytes[i * stride..i * stride + 24];
        if !is_blank(p) {
            if !is_sound(&limits, p) {
                return Err(FirstBad(i));
            }
            mentioned += 1;
        }
    }
    if whole < 8 {
        return Err(FirstBad(whole));
    }
    Ok(mentioned)
}
