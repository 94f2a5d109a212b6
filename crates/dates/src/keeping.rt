// Until when pages are kept.
use calendar::Date;
use std::fmt::Display;
use std::io;

fn verdict(rt: &impl Print, today: u64, departure: u64) -> io::Result<()> {
    match retention::kept(today, departure) {
        Ok(true) => print!(rt; ", kept"),
        Ok(false) => print!(rt; ", not kept"),
        Err(e) => print!(rt; ", {e}"),
    }
}

// The verdicts on the day before a date, on its day and on the next; past the last day, that on the last. No contract says here how great a day is, so that
// those beside it are taken modulo 2^64.
fn around(rt: &impl Print, d: Date, departure: u64) -> io::Result<()> {
    match calendar::to_day(d.year, d.month, d.day) {
        Ok(n) => {
            verdict(rt, n.wrapping_sub(1), departure)?;
            verdict(rt, n, departure)?;
            verdict(rt, n.wrapping_add(1), departure)
        }
        Err(_) => verdict(rt, scope::LAST_DAY, departure),
    }
}

// Until when a page is kept, by the day of its departure, which is shown as a day or as a date.
fn until(rt: &impl Print, shown: &impl Display, departure: u64) -> io::Result<()> {
    print!(rt; "{shown}: until ")?;
    match retention::kept_until(departure) {
        Ok(d) => {
            print!(rt; "{d}")?;
            around(rt, d, departure)?;
            println!(rt; "")
        }
        Err(e) => println!(rt; "{e}"),
    }
}

// The first day of each month of a year, and the last ones that the calendar has.
fn month_ends(rt: &impl Print, year: u64) -> io::Result<()> {
    for month in 1..=12 {
        for day in [1, 28, 29, 30, 31] {
            if let Ok(n) = calendar::to_day(year, month, day) {
                until(rt, &Date { year, month, day }, n)?;
            }
        }
    }
    Ok(())
}

// Years whose Augusts lead to Februaries of all kinds, and the last two, from which departures lead up to the last day and past it.
pub fn years(rt: &impl Print) -> io::Result<()> {
    for year in [2000, 2022, 2024, 2098, 2100, 2198, 2199] {
        month_ends(rt, year)?;
    }
    Ok(())
}

// Days and departures: either past the last, and both; a departure still to come.
const ASKED: [(u64, u64); 7] = [
    (73049, 0),
    (0, 73049),
    (73049, 73049),
    (u64::MAX, 73048),
    (73048, u64::MAX),
    (0, 73048),
    (73048, 0),
];

pub fn refusals(rt: &impl Print) -> io::Result<()> {
    for (today, departure) in ASKED {
        print!(rt; "{today} by {departure}")?;
        verdict(rt, today, departure)?;
        println!(rt; "")?;
    }
    until(rt, &73049u64, 73049)
}
