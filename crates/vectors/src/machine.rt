// What the commands are about: the bytes that they make, and the answers.
ghost use Rattle.std.specs.Prelude.{◌≤◌, length};

use crate::answers::Answers;
use crate::command::Command;
use crate::replies;
use crate::replies::Line;
use numbers::Instant;
use std::alloc::{AllocError, Global};
use std::{fmt, mem};
use table::Sides;

// The most bytes that a table, a record and an output have.
const TABLE: usize = 65_536;

const RECORD: usize = 512;

const OUTPUT: usize = 65_536;

// How many bytes a property has.
const STRIDE: usize = 24;

// The bytes that commands make, and the answers. `before` is the table before the last question that may
// change it, or that checks it; `kept` is the record or the output before the last question that may change it.
#[derive(Drop)]
pub struct Machine {
    buffer: Vec<u8>,
    feature: Vec<u8>,
    table: Vec<u8>,
    other: Vec<u8>,
    before: Vec<u8>,
    record: Vec<u8>,
    output: Vec<u8>,
    kept: Vec<u8>,
    instant: Instant,
    answers: Answers,
}

impl Machine {
    // The machine before the first command.
    pub fn new(alloc: Global) -> Result<Machine, AllocError> {
        Ok(Machine {
            buffer: Vec::new(alloc),
            feature: Vec::new(alloc),
            table: Vec::new(alloc),
            other: Vec::new(alloc),
            before: Vec::new(alloc),
            record: Vec::new(alloc),
            output: Vec::new(alloc),
            kept: Vec::new(alloc),
            instant: Instant(0),
            answers: Answers::new(alloc)?,
        })
    }

    // The text of the answers.
    pub fn answers(&self) -> &[u8]
        ensures { length result.now ≤ 3145728 }
    {
        self.answers.as_bytes()
    }

    // Makes bytes anew, or puts a question and writes its answer.
    pub fn obey(&mut self, command: Command<'_>) -> fmt::Result {
        match command {
            Command::Buffer(bytes) => copy(&mut self.buffer, bytes)?,
            Command::Feature(bytes) => copy(&mut self.feature, bytes)?,
            Command::Patch(pairs) => self.patch(pairs),
            Command::Table(size, value) => lay(&mut self.table, size.min(TABLE), value)?,
            Command::Write(at, bytes) => self.write(at, bytes),
            Command::Restore => copy(&mut self.table, &self.before)?,
            Command::Exchange => mem::swap(&mut self.table, &mut self.other),
            Command::Instant(instant) => self.instant = instant,
            Command::Record(size, value) => lay(&mut self.record, size.min(RECORD), value)?,
            Command::Output(size, value) => lay(&mut self.output, size.min(OUTPUT), value)?,
            Command::Decode => self.decode()?,
            Command::CheckEight => self.check_eight()?,
            Command::CheckSlice(side) => self.check_slice(side)?,
            Command::CheckTable(sides) => self.check_table(sides)?,
            Command::NewTable(side) => self.new_table(side)?,
            Command::Arrive => self.arrive()?,
            Command::PermanentState => self.permanent_state()?,
            Command::Snapshot => self.snapshot()?,
            Command::Property(number) => self.property(number)?,
            Command::Touched(number) => self.touched(number)?,
            Command::Derive => self.derive()?,
            Command::List => self.list()?,
        }
        Ok(())
    }

    // Sets bytes of the buffer, those that it has: the pairs are offsets and values.
    fn patch(&mut self, pairs: &[u8]) {
        for pair in pairs.chunks_exact(2) {
            if let &[at, value] = pair
                && let Some(byte) = self.buffer.get_mut(at as usize)
            {
                *byte = value;
            }
        }
    }

    // Writes bytes into the table from a place on, as many of them as it has room for.
    fn write(&mut self, at: usize, bytes: &[u8]) {
        if let Some(rest) = self.table.as_mut_slice().get_mut(at..) {
            for (old, new) in rest.iter_mut().zip(bytes) {
                *old = *new;
            }
        }
    }

    // Asks for the value of the buffer as one property.
    fn decode(&mut self) -> fmt::Result {
        let decoded = property::decode(&self.buffer);
        write!(self.answers, "{}", Line(decoded))
    }

    // Asks for the check of the buffer as eight properties.
    fn check_eight(&mut self) -> fmt::Result {
        let survey = property::check_eight(&self.buffer, STRIDE);
        writeln!(self.answers, "{}", replies::surveyed(survey))
    }

    // Asks for the check of the buffer as a slice.
    fn check_slice(&mut self, side: u8) -> fmt::Result {
        let check = slice::check_slice(&self.buffer, STRIDE, &self.feature, side);
        writeln!(self.answers, "{}", replies::checked(check))
    }

    // Asks for the check of the table.
    fn check_table(&mut self, sides: Sides) -> fmt::Result {
        copy(&mut self.before, &self.table)?;
        let check = table::check_table(&self.table, sides);
        writeln!(self.answers, "{}", replies::checked(check))
    }

    // Asks for a new table. A short feature is filled up with zeros.
    fn new_table(&mut self, side: u8) -> fmt::Result {
        copy(&mut self.before, &self.table)?;
        let mut feature = [0; 16];
        for (to, from) in feature.iter_mut().zip(&self.feature) {
            *to = *from;
        }
        let creation = table::new_table(&mut self.table, side, &feature);
        write!(self.answers, "{}", replies::created(creation))?;
        self.answers.put_changes(&self.before, &self.table)
    }

    // Asks for the arrival of the buffer at the table.
    fn arrive(&mut self) -> fmt::Result {
        copy(&mut self.before, &self.table)?;
        let arrival = table::arrive(&mut self.table, &self.buffer);
        write!(self.answers, "{}", replies::arrived(arrival))?;
        self.answers.put_changes(&self.before, &self.table)
    }

    // Asks for the permanent state, into the record.
    fn permanent_state(&mut self) -> fmt::Result {
        copy(&mut self.kept, &self.record)?;
        let outcome = state::permanent_state(&self.table, self.instant, &mut self.record);
        write!(self.answers, "{}", replies::written(outcome))?;
        self.answers.put_changes(&self.kept, &self.record)
    }

    // Asks for the snapshot, into the record.
    fn snapshot(&mut self) -> fmt::Result {
        copy(&mut self.kept, &self.record)?;
        let outcome = state::snapshot(&self.table, &self.other, self.instant, &mut self.record);
        write!(self.answers, "{}", replies::written(outcome))?;
        self.answers.put_changes(&self.kept, &self.record)
    }

    // Asks for a property, by the three questions about it.
    fn property(&mut self, number: u8) -> fmt::Result {
        let place = state::locate(&self.table, &self.other, self.instant, number);
        let source = state::source_of(&self.table, &self.other, self.instant, number);
        let bytes = state::property(&self.table, &self.other, self.instant, number);
        let (table, offset) = replies::placed(place);
        let named = replies::named(source);
        write!(self.answers, "{table}")?;
        if let Some(offset) = offset {
            write!(self.answers, " {offset}")?;
        }
        if !bytes.is_empty() {
            self.answers.put(b" ")?;
            self.answers.put_bytes(bytes)?;
        }
        if table.0 != named.0 {
            write!(self.answers, " but {named}")?;
        }
        self.answers.put(b"\n")
    }

    // Asks whether the other table, as the temporary one, touches a property.
    fn touched(&mut self, number: u8) -> fmt::Result {
        let touched = state::touched(&self.other, self.instant, number);
        writeln!(self.answers, "{}", replies::touched(touched))
    }

    // Asks for the derived baselines of the table, into the output.
    fn derive(&mut self) -> fmt::Result {
        copy(&mut self.kept, &self.output)?;
        let derivation = baselines::derive(&self.table, &mut self.output);
        write!(self.answers, "{}", replies::derived(derivation))?;
        self.answers.put_changes(&self.kept, &self.output)
    }

    // Asks for the listing of the table, into the output.
    fn list(&mut self) -> fmt::Result {
        copy(&mut self.kept, &self.output)?;
        let listing = text::list(&self.table, &mut self.output);
        write!(self.answers, "{}", replies::listed(listing))?;
        self.answers.put_changes(&self.kept, &self.output)
    }
}

// Makes bytes what others are.
fn copy(to: &mut Vec<u8>, from: &[u8]) -> Result<(), AllocError> {
    to.clear();
    to.extend_from_slice(from)
}

// Makes bytes one value, so many times.
fn lay(to: &mut Vec<u8>, size: usize, value: u8) -> Result<(), AllocError> {
    to.clear();
    to.resize(size, value)
}
