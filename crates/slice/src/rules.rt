// Times (15) and content (16), on the fields of a slice.
ghost use Rattle.std.specs.Prelude.{◌≡◌};
ghost use Rattle.slice.specs.Rules.{end_right, baseline_times, permdelta_times, tempdelta_times, times_of, content_of};

use crate::record::{BASELINE, Life, PERMDELTA, Period};

// Whether the end is none or after the begin.
fn end_right(period: Period) -> bool
    ensures { result ≡ end_right period }
{
    period.end.is_none() | period.begin.precedes(period.end)
}

// The times of a BASELINE, its begin being given.
#[tactic(auto, unfolding(crate::specs::Rules::baseline_times))]
fn baseline_times(period: Period, life: Life) -> bool
    ensures { result ≡ baseline_times period life }
{
    let born_right = life.begin.is_none() | life.begin.at_most(period.begin);
    let gone_right = life.end.is_none() | period.begin.precedes(life.end);
    let end_in_life = period.end.is_none() | (life.end.is_none() | period.end.at_most(life.end));
    end_right(period) & (born_right & (gone_right & end_in_life))
}

// The times of a PERMDELTA, its instant being given.
#[tactic(auto, unfolding(crate::specs::Rules::permdelta_times))]
fn permdelta_times(period: Period, life: Life) -> bool
    ensures { result ≡ permdelta_times period life }
{
    let instant = period.begin;
    let born_right = life.begin.is_none() | life.begin.is(instant);
    let gone_right = life.end.is_none() | life.end.is(instant);
    let one_at_most = life.begin.is_none() | life.end.is_none();
    period.end.is_none() & (born_right & (gone_right & one_at_most))
}

// The times of a TEMPDELTA, its begin being given.
#[tactic(auto, unfolding(crate::specs::Rules::tempdelta_times))]
fn tempdelta_times(period: Period, life: Life) -> bool
    ensures { result ≡ tempdelta_times period life }
{
    end_right(period) & (life.begin.is_none() & life.end.is_none())
}

// Whether the times of a slice of a kind are right.
#[tactic(auto, unfolding(crate::specs::Rules::times_of))]
pub fn times_right(kind: u8, period: Period, life: Life) -> bool
    ensures { result ≡ times_of kind period life }
{
    if period.begin.is_none() {
        return false;
    }
    match kind {
        BASELINE => baseline_times(period, life),
        PERMDELTA => permdelta_times(period, life),
        _ => tempdelta_times(period, life),
    }
}

// Whether the content of a slice of a kind is right, by whether it mentions every property and whether
// it mentions some.
#[tactic(auto, unfolding(crate::specs::Rules::content_of))]
pub fn content_right(kind: u8, life: Life, every: bool, some: bool) -> bool
    ensures { result ≡ content_of kind life every some }
{
    match kind {
        BASELINE => every,
        PERMDELTA => some | (!life.begin.is_none() | !life.end.is_none()),
        _ => some,
    }
}
