// Has anything temporary touched a property at an instant: yes or no, without its value.
ghost use Rattle.std.specs.Prelude.{◌≡◌};
ghost use Rattle.slice.specs.Refusing.{told};
ghost use Rattle.state.specs.Touched.{touched_of, touched_reply};

use crate::looking::{Touched, look_down};
use numbers::Instant;
use slice::Refusal;
use table::{Sides, check_table};

// Whether anything temporary has touched a property at an instant: yes where a TEMPDELTA that is valid then
// mentions it, with how many records were looked at, the found one and all after it; no, with all of them.
// Refused: 1 to 7 for the table, 19 for no instant or a property over 7.
#[tactic(auto, using(crate::proofs::Touches::asking_touched))]
pub fn touched(temporary: &[u8], instant: Instant, property: u8) -> Result<Touched, Refusal>
    ensures { touched_reply (told result) ≡ touched_reply (touched_of temporary.now instant property) }
{
    check_table(temporary, Sides::Temporary)?;
    if instant.is_none() | (7 < property) {
        return Err(Refusal::InstantOrProperty);
    }
    Ok(look_down(temporary, instant, property as usize))
}
