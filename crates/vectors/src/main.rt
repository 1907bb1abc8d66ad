// Reads commands from standard input, puts what they ask to the library, and writes its answers to
// standard output, a line each. A command is a line: a letter, and pairs of hexadecimal digits. Where a read
// or a write fails, the program ends with that error.
//
//   b BYTES           the buffer becomes these bytes, at most 512
//   f BYTES           the feature becomes these bytes, at most 64
//   p PAIRS           each pair, an offset and a value, sets that byte of the buffer
//   t LENGTH VALUE    the table becomes so many bytes, at most 65,536, each of this value
//   w OFFSET BYTES    these bytes are written into the table, from this offset on
//   z                 the table becomes what it was before the last k, m or a
//   x                 the table and the other table are exchanged
//   i INSTANT         the instant becomes this
//   l LENGTH VALUE    the record becomes so many bytes, at most 512, each of this value
//   o LENGTH VALUE    the output becomes so many bytes, at most 65,536, each of this value
//   d                 asks for the value of the buffer as one property
//   r                 asks for the check of the buffer as eight properties
//   s SIDE            asks for the check of the buffer as a slice, against the feature and this side
//   k SIDES           asks for the check of the table, 0 taking permanent ones, 1 temporary ones, 2 both
//   m SIDE            asks for a new table, of this side and the first 16 bytes of the feature
//   a                 asks for the arrival of the buffer at the table
//   g                 asks for the permanent state of the table at the instant, into the record
//   n                 asks for the snapshot of the table and the other one at the instant, into the record
//   v PROPERTY        asks for the property of this number of the same tables at the instant
//   u PROPERTY        asks whether the other table, as the temporary one, touches the property of this number
//                     at the instant
//   e                 asks for the derived baselines of the table, into the output
//   y                 asks for the listing of the table, into the output
//
// LENGTH and OFFSET have three pairs, that of a record two, INSTANT four. The answers to m and a end with
// the bytes of the table that changed, those to g and n with those of the record, those to e and y with
// those of the output. A line that is no command is passed over, and so is what follows the first
// 4,194,304 bytes of the input.
#![tactic(auto)]

mod answers;
mod command;
mod machine;
mod replies;

use crate::command::Command;
use crate::machine::Machine;
use std::alloc::Global;
use std::io;
use std::io::{Read, Write};

// How many bytes of the input are read.
const INPUT: u64 = 4_194_304;

// Room for the input, and for one more read behind it, so that it is never moved.
const ROOM: usize = 4_194_304 + 512;

// Obeys each line of the input, and answers the machine as they leave it.
fn run(alloc: Global, input: &[u8]) -> io::Result<Machine> {
    let mut machine = Machine::new(alloc)?;
    let mut bytes = Vec::new(alloc);
    for line in input.split(|byte| *byte == b'\n') {
        if let Some(command) = Command::read(line, &mut bytes)? {
            machine.obey(command)?;
        }
    }
    Ok(machine)
}

// Obeys the commands of standard input, and writes the answers.
fn main(rt: HostRuntime) -> io::Result<()> {
    let mut input = Vec::with_capacity(rt.alloc(), ROOM)?;
    rt.stdin().take(INPUT).read_to_end(&mut input)?;
    let machine = run(rt.alloc(), &input)?;
    rt.stdout().write_all(machine.answers())
}
