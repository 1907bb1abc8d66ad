// A line of the input: a letter, and pairs of hexadecimal digits.
ghost use Rattle.std.specs.Prelude.{◌<◌, IfSome};

use numbers::Instant;
use std::alloc::AllocError;
use table::Sides;

// The longest buffer and the longest feature that a line may give.
const BUFFER: usize = 512;

const FEATURE: usize = 64;

// What a line commands: the bytes that it makes anew, or the question that it puts to the library.
#[derive(Clone, Copy)]
pub enum Command<'a> {
    Buffer(&'a [u8]),
    Feature(&'a [u8]),
    Patch(&'a [u8]),
    Table(usize, u8),
    Write(usize, &'a [u8]),
    Restore,
    Exchange,
    Instant(Instant),
    Record(usize, u8),
    Output(usize, u8),
    Decode,
    CheckEight,
    CheckSlice(u8),
    CheckTable(Sides),
    NewTable(u8),
    Arrive,
    PermanentState,
    Snapshot,
    Property(u8),
    Touched(u8),
    Derive,
    List,
}

impl<'a> Command<'a> {
    // The command of a line, if it is one. Its bytes are put where those of the line before were.
    pub fn read(line: &[u8], bytes: &'a mut Vec<u8>) -> Result<Option<Command<'a>>, AllocError> {
        let Some((letter, digits)) = line.split_first() else {
            return Ok(None);
        };
        if !read_bytes(digits, bytes)? {
            return Ok(None);
        }
        Ok(Command::of(*letter, bytes))
    }

    // The command that a letter and the bytes behind it make, if they make one.
    fn of(letter: u8, bytes: &'a [u8]) -> Option<Command<'a>> {
        match (letter, bytes) {
            (b'b', _) if bytes.len() <= BUFFER => Some(Command::Buffer(bytes)),
            (b'f', _) if bytes.len() <= FEATURE => Some(Command::Feature(bytes)),
            (b'p', _) if bytes.len() % 2 == 0 => Some(Command::Patch(bytes)),
            (b't', &[a, b, c, value]) => Some(Command::Table(number(a, b, c), value)),
            (b'w', [a, b, c, rest @ ..]) => Some(Command::Write(number(*a, *b, *c), rest)),
            (b'z', []) => Some(Command::Restore),
            (b'x', []) => Some(Command::Exchange),
            (b'i', &[a, b, c, d]) => Some(Command::Instant(Instant(u32::from_be_bytes([
                a, b, c, d,
            ])))),
            (b'l', &[a, b, value]) => Some(Command::Record(number(0, a, b), value)),
            (b'o', &[a, b, c, value]) => Some(Command::Output(number(a, b, c), value)),
            (b'd', []) => Some(Command::Decode),
            (b'r', []) => Some(Command::CheckEight),
            (b's', &[side]) => Some(Command::CheckSlice(side)),
            (b'k', &[sides]) => Some(Command::CheckTable(sides_of(sides))),
            (b'm', &[side]) => Some(Command::NewTable(side)),
            (b'a', []) => Some(Command::Arrive),
            (b'g', []) => Some(Command::PermanentState),
            (b'n', []) => Some(Command::Snapshot),
            (b'v', &[property]) => Some(Command::Property(property)),
            (b'u', &[property]) => Some(Command::Touched(property)),
            (b'e', []) => Some(Command::Derive),
            (b'y', []) => Some(Command::List),
            _ => None,
        }
    }
}

// The number of three bytes, the highest first.
fn number(a: u8, b: u8, c: u8) -> usize {
    u32::from_be_bytes([0, a, b, c]) as usize
}

// The sides that a check takes, by their number.
fn sides_of(number: u8) -> Sides {
    match number {
        0 => Sides::Permanent,
        1 => Sides::Temporary,
        _ => Sides::Both,
    }
}

// Makes bytes those that pairs of digits write, and answers whether the digits are such pairs.
fn read_bytes(digits: &[u8], bytes: &mut Vec<u8>) -> Result<bool, AllocError> {
    bytes.clear();
    for pair in digits.chunks(2) {
        let Some(byte) = byte_of(pair) else {
            return Ok(false);
        };
        bytes.push(byte)?;
    }
    Ok(true)
}

// The byte that a pair of digits writes, if it is one.
fn byte_of(pair: &[u8]) -> Option<u8> {
    let &[high, low] = pair else {
        return None;
    };
    Some(digit(high)? << 4 | digit(low)?)
}

// The number of a hexadecimal digit, if it is one. A capital letter is none.
fn digit(c: u8) -> Option<u8>
    ensures { IfSome result (λ n. n < 16) }
{
    match c {
        b'0'..=b'9' => Some(c - b'0'),
        b'a'..=b'f' => Some(c - b'a' + 10),
        _ => None,
    }
}
