// Reads a permanent table from standard input, and writes the listing of its derived baselines to standard
// output. Where a read or a write fails, the program ends with that error.
#![tactic(auto)]

use std::io::{Read, Result, Write};
use text::say;

// How many bytes of the input are read: one more than a table has is enough to tell that it is too long.
const INPUT: u64 = 57_377;

// How many bytes hold every listing.
const LISTING: usize = 10_771;

// Writes what is said of standard input.
fn main(rt: HostRuntime) -> Result<()> {
    let mut input = Vec::new(rt.alloc());
    rt.stdin().take(INPUT).read_to_end(&mut input)?;
    let mut text = vec![in rt.alloc(); 0; LISTING]?;
    if let Ok(length) = say(&input, &mut text) {
        text.truncate(length);
        rt.stdout().write_all(&text)?;
    }
    Ok(())
}
