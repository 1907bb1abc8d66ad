// What the library answers, as it is printed. What prints as one piece is written whole or not at all.
use crate::answers::digit_of;
use property::{FirstBad, LengthUnit, Value};
use slice::Refusal;
use state::{Place, Source, Touched};
use std::fmt::{Display, Formatter, Write};
use std::{fmt, str};
use table::Arrival;
use text::Needs;

// What a call gives, or its refusal, which prints as its number.
#[derive(Clone, Copy)]
pub struct Reply<T>(pub Result<T, Refusal>);

impl<T: Display> Display for Reply<T> {
    fn fmt<W: Write>(&self, f: &mut Formatter<W>) -> fmt::Result {
        match &self.0 {
            Ok(given) => given.fmt(f),
            Err(refusal) => refusal.number().fmt(f),
        }
    }
}

// A word, with its blank, and a number.
#[derive(Clone, Copy)]
pub struct Counted(&'static str, usize);

impl Display for Counted {
    fn fmt<W: Write>(&self, f: &mut Formatter<W>) -> fmt::Result {
        let Counted(word, count) = *self;
        write!(f, "{word}{count}")
    }
}

// The reply of a check.
pub fn checked(check: Result<(), Refusal>) -> Reply<&'static str> {
    Reply(check.map(|()| "0"))
}

// The reply of making a table.
pub fn created(creation: Result<(), Refusal>) -> Reply<&'static str> {
    Reply(creation.map(|()| "made"))
}

// The reply of an arrival.
pub fn arrived(arrival: Result<Arrival, Refusal>) -> Reply<&'static str> {
    Reply(arrival.map(|accepted| match accepted {
        Arrival::Added => "added",
        Arrival::Replaced => "replaced",
        Arrival::Superseded => "superseded",
        Arrival::Repeat => "repeat",
    }))
}

// The reply of a question that writes a record.
pub fn written(outcome: Result<(), Refusal>) -> Reply<&'static str> {
    Reply(outcome.map(|()| "written"))
}

// The reply to whether a property is touched, with how many records were looked at.
pub fn touched(found: Result<Touched, Refusal>) -> Reply<Counted> {
    Reply(found.map(|touched| match touched {
        Touched::Yes(looked) => Counted("yes ", looked),
        Touched::No(looked) => Counted("no ", looked),
    }))
}

// The reply of a derivation, with how many baselines there are.
pub fn derived(derivation: Result<usize, Refusal>) -> Reply<Counted> {
    Reply(derivation.map(|count| Counted("derived ", count)))
}

// What a listing answers, with the length of its text.
pub fn listed(listing: Result<usize, Needs>) -> Counted {
    match listing {
        Ok(length) => Counted("text ", length),
        Err(Needs(length)) => Counted("needs ", length),
    }
}

// What the check of eight properties finds, with a place or how many are mentioned.
pub fn surveyed(survey: Result<usize, FirstBad>) -> Counted {
    match survey {
        Ok(mentions) => Counted("sound ", mentions),
        Err(FirstBad(place)) => Counted("bad ", place),
    }
}

// Which table a property's bytes are in, and where in it, if they are in one.
pub fn placed(place: Result<Place, Refusal>) -> (Reply<&'static str>, Option<usize>) {
    match place {
        Ok(Place::Permanent(offset)) => (Reply(Ok("permanent")), Some(offset)),
        Ok(Place::Temporary(offset)) => (Reply(Ok("temporary")), Some(offset)),
        Ok(Place::Unmentioned) => (Reply(Ok("unmentioned")), None),
        Err(refusal) => (Reply(Err(refusal)), None),
    }
}

// Which table is named for a property.
pub fn named(source: Result<Source, Refusal>) -> Reply<&'static str> {
    Reply(source.map(|table| match table {
        Source::Permanent => "permanent",
        Source::Temporary => "temporary",
        Source::Unmentioned => "unmentioned",
    }))
}

// The bits of a double as 16 hexadecimal digits, one piece. Each NaN prints as one NaN.
#[derive(Clone, Copy)]
struct Bits(f64);

impl Display for Bits {
    fn fmt<W: Write>(&self, f: &mut Formatter<W>) -> fmt::Result {
        let bits = if self.0.is_nan() {
            0x7ff8_0000_0000_0000
        } else {
            self.0.to_bits()
        };
        let mut digits = [b'0'; 16];
        let mut rest = bits;
        for place in (0..16).rev() {
            digits[place] = digit_of((rest % 16) as u8);
            rest /= 16;
        }
        match str::from_utf8(&digits) {
            Ok(text) => f.write_str(text),
            Err(_) => Err(fmt::Error),
        }
    }
}

// The line of a property's value. A word and the end of its line are one piece.
#[derive(Clone, Copy)]
pub struct Line(pub Option<Value>);

impl Display for Line {
    fn fmt<W: Write>(&self, f: &mut Formatter<W>) -> fmt::Result {
        match self.0 {
            Some(value) => write_value(f, value),
            None => f.write_str("broken\n"),
        }
    }
}

// Writes the line of a value.
fn write_value<W: Write>(f: &mut Formatter<W>, value: Value) -> fmt::Result {
    match value {
        Value::Unmentioned => f.write_str("unmentioned\n"),
        Value::Inapplicable => f.write_str("inapplicable\n"),
        Value::Missing => f.write_str("missing\n"),
        Value::Template => f.write_str("template\n"),
        Value::Unknown => f.write_str("unknown\n"),
        Value::Withheld => f.write_str("withheld\n"),
        Value::Code(code) => writeln!(f, "code {code}"),
        Value::Number(number) => write_number(f, number),
        Value::Length(length, unit) => write!(f, "length {}{}", Bits(length), ending(unit)),
        Value::Point(p) => writeln!(f, "point {} {}", Bits(p.latitude), Bits(p.longitude)),
    }
}

// Writes the line of a whole number, its sign a piece of its own.
fn write_number<W: Write>(f: &mut Formatter<W>, number: i32) -> fmt::Result {
    let sign = if number < 0 { "-" } else { "" };
    writeln!(f, "number {sign}{}", number.unsigned_abs())
}

// How the line of a length ends, one piece.
fn ending(unit: LengthUnit) -> &'static str {
    match unit {
        LengthUnit::M => " M\n",
        LengthUnit::FT => " FT\n",
        LengthUnit::KM => " KM\n",
        LengthUnit::NM => " NM\n",
    }
}
