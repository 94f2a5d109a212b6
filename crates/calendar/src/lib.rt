// Dates of the Gregorian calendar. A day is a number, counted from 1 January 2000 as 0.
#![tactic(auto)]

ghost use Rattle.std.specs.Prelude.{◌≡◌, true, ◌+◌, ◌*◌, ◌/◌, ◌≤◌, ◌<◌};
ghost use Rattle.scope.specs.Limits.{last_day};
ghost use Rattle.calendar.specs.Calendar;
ghost use Rattle.calendar.specs.Calls;
ghost use Rattle.calendar.specs.Inner.{to_march, from_march, march_day};
ghost use Rattle.calendar.specs.Machine.{date_of, dated_of, numbered_of};

use scope::Refusal;
use std::fmt;

// Dates are ordered by the year, then by the month, then by the day, as the fields stand.
#[derive(Clone, Copy, Debug, PartialEq, Eq, PartialOrd, Ord)]
pub struct Date {
    pub year: u64,
    pub month: u64,
    pub day: u64,
}

impl fmt::Display for Date {
    fn fmt<W: fmt::Write>(&self, f: &mut fmt::Formatter<W>) -> fmt::Result {
        write!(f, "{}-{:02}-{:02}", self.year, self.month, self.day)
    }
}

#[tactic(auto, unfolding(crate::specs::Calendar::leap))]
fn leap(year: u64) -> bool
    ensures { result ≡ Calendar.leap year }
{
    (year % 4 == 0 && year % 100 != 0) || year % 400 == 0
}

// How many days a month has, months counted from 1.
#[tactic(auto, using(crate::proofs::Formulas::february, crate::proofs::Formulas::other_month))]
pub fn month_length(year: u64, month: u64) -> u64
    requires { (1 ≤ month) × (month ≤ 12) }
    ensures { result ≡ Calendar.month_length year month }
{
    if month == 2 {
        if leap(year) {
            return 29;
        }
        return 28;
    }
    // 31 and 30 by turns, from January to July and again from August on
    30 + (month + month / 8) % 2
}

// Whether a date is one of the calendar and of the years from 2000 to 2199.
#[tactic(auto, unfolding(crate::specs::Calls::has_day, crate::specs::Calendar::on_calendar))]
fn has_day(year: u64, month: u64, day: u64) -> bool
    ensures { result ≡ Calls.has_day (Calendar.date year month day) }
{
    1 <= month
        && month <= 12
        && 1 <= day
        && day <= month_length(year, month)
        && scope::FIRST_YEAR <= year
        && year <= scope::LAST_YEAR
}

// Whether a date is another or before it.
#[tactic(auto, unfolding(crate::specs::Calendar::on_or_before))]
pub fn on_or_before(d: Date, e: Date) -> bool
    ensures { result ≡ Calendar.on_or_before (date_of d) (date_of e) }
{
    d <= e
}

// ---- years that begin with March
//
// Such a year has its leap day last, and its months have 31, 30, 31, 30 and 31 days again and again, as long as it lasts. So where every fourth year has 366
// days, the days before a year and before a month are quotients. From 1 March 1999 to the end of 2199 every fourth has, but for the one with February 2100: a
// 29th is counted there as well.

// From 1 March 1999 to 1 January 2000.
const FROM_MARCH: u64 = 306;

// 1 March 2100, where 29 February would be.
const MARCH_2100: u64 = 36584;

// A day's number in that count.
#[tactic(auto, unfolding(crate::specs::Inner::to_march))]
fn to_march(day: u64) -> u64
    requires { day ≤ last_day }
    ensures { result ≡ to_march day }
{
    if day >= MARCH_2100 {
        return day + FROM_MARCH + 1;
    }
    day + FROM_MARCH
}

// And the day of a number.
#[tactic(auto, unfolding(crate::specs::Inner::from_march))]
fn from_march(n: u64) -> u64
    requires { 306 ≤ n }
    ensures { result ≡ from_march n }
{
    let day = n - FROM_MARCH;
    if day > MARCH_2100 {
        return day - 1;
    }
    day
}

// The days before year y, from March 1999 on as year 0.
fn before_year(y: u64) -> u64
    requires { y ≤ 200 }
    ensures { result ≡ (1461 * y + 3) / 4 }
{
    (1461 * y + 3) / 4
}

// The days before month m of a year, March being month 0.
fn before_month(m: u64) -> u64
    requires { m ≤ 11 }
    ensures { result ≡ (153 * m + 2) / 5 }
{
    (153 * m + 2) / 5
}

// The number of day d of month m of year y.
fn march_day(y: u64, m: u64, d: u64) -> u64
    requires { (y ≤ 200) × (m ≤ 11) × (1 ≤ d) × (d ≤ 31) }
    ensures { result ≡ march_day y m d }
{
    before_year(y) + before_month(m) + (d - 1)
}

// The date of a day that is not past the last: year and month of those that begin with March, turned into the calendar's.
pub fn date_of(day: u64) -> Date
    requires { day ≤ last_day }
    ensures { date_of result ≡ Calendar.date_on day }
{
    let n = to_march(day);
    let y = 4 * n / 1461;
    let t = n - before_year(y);
    let m = (5 * t + 2) / 153;
    let d = t - before_month(m) + 1;
    if m < 10 {
        return Date {
            year: 1999 + y,
            month: m + 3,
            day: d,
        };
    }
    Date {
        year: 2000 + y,
        month: m - 9,
        day: d,
    }
}

// The day of a date that has one.
fn day_of(year: u64, month: u64, day: u64) -> u64
    requires { Calls.has_day (Calendar.date year month day) ≡ true }
    ensures { result ≡ Calendar.day_of (Calendar.date year month day) }
{
    if month < 3 {
        return from_march(march_day(year - 2000, month + 9, day));
    }
    from_march(march_day(year - 1999, month - 3, day))
}

// The date of a day. Refused: 12 for a day after 73,048.
#[tactic(auto, unfolding(crate::specs::Calls::to_date))]
pub fn to_date(day: u64) -> Result<Date, Refusal>
    ensures { dated_of result ≡ Calls.to_date day }
{
    if day > scope::LAST_DAY {
        return Err(Refusal::DayRange);
    }
    Ok(date_of(day))
}

// The day of a date. Refused: 12 for one that the calendar lacks or outside the years 2000 to 2199.
#[tactic(auto, unfolding(crate::specs::Calls::to_day))]
pub fn to_day(year: u64, month: u64, day: u64) -> Result<u64, Refusal>
    ensures { numbered_of result ≡ Calls.to_day (Calendar.date year month day) }
{
    if has_day(year, month, day) {
        return Ok(day_of(year, month, day));
    }
    Err(Refusal::DayRange)
}
