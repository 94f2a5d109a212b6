// The keeping rule: until which date a page is kept, and whether it is on a day.
#![tactic(auto)]

ghost use Rattle.std.specs.Prelude.{◌≡◌, ◌≤◌};
ghost use Rattle.scope.specs.Limits.{last_day};
ghost use Rattle.calendar.specs.Calendar.{date_on};
ghost use Rattle.calendar.specs.Machine.{date_of, dated_of};
ghost use Rattle.retention.specs.Keeping;
ghost use Rattle.retention.specs.Machine.{verdict_of};

use calendar::Date;
use scope::Refusal;

// The same day eighteen months after a departure, or that month's last day.
fn last_date(departure: u64) -> Date
    requires { departure ≤ last_day }
    ensures { date_of result ≡ Keeping.last_date (date_on departure) }
{
    let d = calendar::date_of(departure);
    let months = d.month - 1 + scope::KEPT_MONTHS;
    let year = d.year + months / 12;
    let month = months % 12 + 1;
    let last = calendar::month_length(year, month);
    Date {
        year,
        month,
        day: d.day.min(last),
    }
}

// The last date on which a page is kept, by the day of its departure. Days count from 1 January 2000 as 0. Refused: 12 for a day after 73,048.
#[tactic(auto, unfolding(crate::specs::Keeping::kept_until))]
pub fn kept_until(departure: u64) -> Result<Date, Refusal>
    ensures { dated_of result ≡ Keeping.kept_until departure }
{
    if departure > scope::LAST_DAY {
        return Err(Refusal::DayRange);
    }
    Ok(last_date(departure))
}

// Whether a page is kept today, by the day of its departure. Refused: 12 for either day after 73,048.
#[tactic(auto, unfolding(crate::specs::Keeping::keeping))]
pub fn kept(today: u64, departure: u64) -> Result<bool, Refusal>
    ensures { verdict_of result ≡ Keeping.keeping today departure }
{
    if today > scope::LAST_DAY || departure > scope::LAST_DAY {
        return Err(Refusal::DayRange);
    }
    let d = calendar::date_of(today);
    Ok(calendar::on_or_before(d, last_date(departure)))
}
