// One pass over the permanent table: its anchors at an instant, and the latest mention of each part.
ghost use Rattle.std.specs.Prelude.{◌≡◌, true, ℕ, ◌+◌, ◌≤◌, ◌<◌, length, get_or};
ghost use Rattle.slice.specs.Record.{view_of};
ghost use Rattle.history.specs.Counted.{counts};
ghost use Rattle.history.specs.Anchor.{stands};
ghost use Rattle.history.specs.Parts.{due, opens_due, latest_due};
ghost use Rattle.state.specs.Asking.{slices_of};
ghost use Rattle.state.specs.declared.anchor.Few.TheVariants.{Zero};
ghost use Rattle.state.specs.Steps.{Walkable, nothing, wanted, mark_of, mark_due, tally_from, holding, since_of};

use crate::anchor::{Few, tallied};
use crate::front::{front_of, together};
use crate::mention::{Latest, Mark, gives, later, mentions, no_mention};
use numbers::Instant;
use octets::byte;
use slice::{PERMDELTA, is_cancelled, key_of, period_of};
use table::{count_of, record_at, record_size, stride_of};

// What a pass over the permanent table finds: the BASELINEs that hold at an instant; of the PERMDELTAs that
// can matter to it, those that open, and the latest mentions.
#[derive(Clone, Copy)]
pub struct Survey {
    pub bases: Few,
    pub openings: Few,
    pub latest: Latest,
}

// Whether a record is one of a kind that is not cancelled.
#[tactic(auto, unfolding(history::specs::Counted::counts, slice::specs::Record::view_of))]
pub(crate) fn is_counted(record: &[u8], kind: u8) -> bool
    ensures { (stride : ℕ) → result ≡ counts kind (view_of stride «record».now) }
{
    byte(record, 0) == kind && !is_cancelled(record)
}

// Whether a record is one of a kind that is not cancelled, with an instant in its period.
#[tactic(auto, unfolding(crate::specs::Steps::holding, history::specs::Counted::holds, slice::specs::Record::view_of))]
pub(crate) fn is_holding(record: &[u8], kind: u8, instant: Instant) -> bool
    ensures { (stride : ℕ) → result ≡ holding kind instant (view_of stride «record».now) }
{
    if !is_counted(record, kind) {
        return false;
    }
    let period = period_of(record);
    period.begin.at_most(instant) & instant.precedes(period.end)
}

// Whether a record is a PERMDELTA with its instant from one up to and with another.
#[tactic(auto, unfolding(history::specs::Parts::due, history::specs::Counted::holds, slice::specs::Record::view_of))]
fn is_due(record: &[u8], since: Instant, instant: Instant) -> bool
    ensures { (stride : ℕ) → result ≡ due since instant (view_of stride «record».now) }
{
    if !is_counted(record, PERMDELTA) {
        return false;
    }
    let begin = period_of(record).begin;
    since.at_most(begin) & begin.at_most(instant)
}

// The mention that a PERMDELTA makes: it applies at its instant.
#[tactic(auto, unfolding(slice::specs::Record::view_of))]
fn mark_of(record: &[u8], place: usize) -> Mark
    requires { place ≤ 256 }
    ensures { (stride : ℕ) → result ≡ mark_of place (view_of stride «record».now) }
{
    Mark {
        from: place + 1,
        instant: period_of(record).begin,
        sequence: key_of(record).sequence,
    }
}

// Since when a change can matter: the begin of the only BASELINE that holds; else from the first instant on.
fn since_of(permanent: &[u8], bases: Few) -> Instant
    ensures { result ≡ since_of permanent.now bases }
{
    match bases {
        Few::One(place) => period_of(record_at(permanent, record_size(permanent), place)).begin,
        Few::Zero | Few::More => Instant(0),
    }
}

// The one pass over a permanent table, for the properties from one up to another and the life times: its
// BASELINEs, and then the changes behind them.
#[tactic(auto, using(crate::proofs::Turns::sized_at))]
pub(crate) fn survey_permanent(permanent: &[u8], instant: Instant, from: usize, to: usize) -> Survey
    requires { Walkable permanent.now × ((from ≤ to) × (to ≤ 8)) }
    ensures bases { result.bases
        ≡ tally_from (stands (slices_of permanent.now) instant) 0 Zero (slices_of permanent.now) }
    ensures openings { result.openings
        ≡ tally_from (opens_due (since_of permanent.now result.bases) instant) 0 Zero (slices_of permanent.now) }
    ensures marks { (length result.latest.marks ≡ 10)
        × ((q : ℕ) → wanted from to q ≡ true → get_or result.latest.marks q nothing
        ≡ mark_due (latest_due q (since_of permanent.now result.bases) instant (slices_of permanent.now))) }
{
    let stride = stride_of(permanent);
    let size = record_size(permanent);
    let count = count_of(permanent) as usize;
    let front = front_of(permanent, instant);
    let bases = together(front.bases);
    let since = since_of(permanent, bases);
    let mut openings = Few::Zero;
    let mut latest = no_mention();
    for i in front.end..count {
        let record = record_at(permanent, size, i);
        if is_due(record, since, instant) {
            if gives(record, stride, 8) {
                openings = tallied(openings, i);
            }
            let new = mark_of(record, i);
            for part in from..to {
                latest.marks[part] = later(latest.marks[part], new, mentions(record, stride, part));
            }
            latest.marks[8] = later(latest.marks[8], new, gives(record, stride, 8));
            latest.marks[9] = later(latest.marks[9], new, gives(record, stride, 9));
        }
    }
    Survey {
        bases,
        openings,
        latest,
    }
}
