// The text of the answers, for which there is so much room.
ghost use Rattle.std.specs.Prelude.{◌≤◌, ◌<◌, length};

use std::alloc::{AllocError, Global};
use std::fmt;
use std::fmt::{Display, Write};

// How many bytes of answers there is room for.
const ROOM: usize = 3_145_728;

// The answers so far. A piece of text that finds no room is left out, and a shorter one behind it may find some.
#[derive(Drop)]
pub struct Answers {
    text: Vec<u8>,
    ghost within: { length text.items ≤ 3145728 },
}

impl Answers {
    // No answer, with all the room that there is for answers.
    pub fn new(alloc: Global) -> Result<Answers, AllocError> {
        let text = Vec::with_capacity(alloc, ROOM)?;
        Ok(Answers { text })
    }

    // The bytes of the answers.
    pub fn as_bytes(&self) -> &[u8]
        ensures { length result.now ≤ 3145728 }
    {
        &self.text
    }

    // Adds a piece of text, or nothing where there is no room for it.
    pub fn put(&mut self, piece: &[u8]) -> fmt::Result {
        if piece.len() <= ROOM.saturating_sub(self.text.len()) {
            self.text.extend_from_slice(piece)?;
        }
        Ok(())
    }

    // Adds the two hexadecimal digits of a byte, or nothing where there is no room for both.
    fn put_byte(&mut self, byte: u8) -> Result<(), AllocError> {
        if 2 <= ROOM.saturating_sub(self.text.len()) {
            self.text.push(digit_of(byte / 16))?;
            self.text.push(digit_of(byte % 16))?;
        }
        Ok(())
    }

    // Adds bytes as hexadecimal digits. The two of a byte are one piece.
    pub fn put_bytes(&mut self, bytes: &[u8]) -> fmt::Result {
        for byte in bytes {
            self.put_byte(*byte)?;
        }
        Ok(())
    }

    // Adds the bytes that a call changed, from what they were to what they are, each run of them behind its place, and
    // ends the line.
    pub fn put_changes(&mut self, old: &[u8], new: &[u8]) -> fmt::Result {
        let mut end = None;
        for (place, (old, new)) in old.iter().zip(new).enumerate() {
            if old != new {
                if end != Some(place) {
                    write!(self, " {place}:")?;
                }
                self.put_byte(*new)?;
                end = place.checked_add(1);
            }
        }
        self.put(b"\n")
    }

    // Adds what a value prints, for `write!` and `writeln!`. It is for memory alone that this fails.
    pub fn write_fmt<D: Display + Drop>(&mut self, value: D) -> fmt::Result {
        Write::write_fmt(self, value)
    }
}

impl fmt::Write for Answers {
    // Adds a piece of text.
    fn write_str(&mut self, piece: &str) -> fmt::Result {
        self.put(piece.as_bytes())
    }
}

// The hexadecimal digit of a number below 16.
pub(crate) fn digit_of(n: u8) -> u8
    requires { n < 16 }
{
    if n < 10 { b'0' + n } else { b'a' + (n - 10) }
}
