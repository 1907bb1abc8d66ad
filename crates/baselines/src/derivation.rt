// The derived table of a permanent table.
ghost use Rattle.std.specs.Prelude.{◌≡◌, ◌≤◌, length};
ghost use Rattle.octets.specs.Writing.{pasted};
ghost use Rattle.slice.specs.Record as Record;
ghost use Rattle.slice.specs.Refusing.{told};
ghost use Rattle.table.specs.Header.{header_of};
ghost use Rattle.baselines.specs.Deriving.{derived_records, derivation_of, derivation_reply, after_deriving};
ghost use Rattle.baselines.specs.Steps.{Sweepable, handed_of};

use crate::counting::count_all;
use crate::drawing::draw_all;
use crate::noting::note;
use events::sort;
use octets::{put, put16};
use slice::{PERMANENT, Refusal};
use table::{Sides, check_table, record_size};

// Writes the header of a permanent table of a feature, with a count.
fn put_header(output: &mut [u8], feature: &[u8], count: u16)
    requires { (32 ≤ length output.old) × (length feature.now ≡ 16) }
    ensures { output.new
        ≡ pasted output.old 0 (header_of Record.permanent feature.now count) }
{
    put(output, 0, &[b'T', b'S', b'L', PERMANENT, 0, 1]);
    put16(output, 6, count);
    put(output, 8, feature);
    put(output, 24, &[0, 0, 0, 0, 0, 0, 0, 0]);
}

// Writes the derived table of a table where the output holds it, or answers 23.
fn hand_over(
    permanent: &[u8],
    events: &[u64],
    count: usize,
    output: &mut [u8],
) -> Result<usize, Refusal>
    requires sound { Sweepable permanent.now events.now }
    requires few { (count ≤ 256) × (count ≡ length (derived_records permanent.now)) }
    ensures answer { told result ≡ handed_of permanent.now output.old }
    ensures buffer { output.new ≡ after_deriving (told result) permanent.now output.old }
{
    if output.len() < 32 + count * record_size(permanent) {
        return Err(Refusal::BufferSize);
    }
    put_header(output, &permanent[8..24], count as u16);
    draw_all(permanent, events, output);
    Ok(count)
}

// Derives the baselines of a permanent table: one BASELINE for each change instant that has a permanent
// state, until the next one, as a permanent table of the same feature. Answers their number. Refused, with
// every byte as it was: 1 to 7 for the table, 21 for two anchors at a change instant, 23 for over 256
// records or more than the output holds. No derived record fails the slice check, 24, which is proved and
// so not looked at.
pub fn derive(permanent: &[u8], output: &mut [u8]) -> Result<usize, Refusal>
    ensures answer { derivation_reply (told result) ≡ derivation_reply (derivation_of permanent.now output.old) }
    ensures buffer { output.new ≡ after_deriving (told result) permanent.now output.old }
{
    check_table(permanent, Sides::Permanent)?;
    let mut room = [0; 512];
    let n = note(permanent, &mut room);
    let events = &mut room[..n];
    sort(events);
    let count = count_all(permanent, events)?;
    if 256 < count {
        return Err(Refusal::BufferSize);
    }
    hand_over(permanent, events, count, output)
}
