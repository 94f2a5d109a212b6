// Days and their dates.
use calendar::Date;
use std::io;

// The day of a date, to the end of a line.
fn number_of(rt: &impl Print, d: Date) -> io::Result<()> {
    match calendar::to_day(d.year, d.month, d.day) {
        Ok(n) => println!(rt; "{n}"),
        Err(e) => println!(rt; "{e}"),
    }
}

// The date of a day, and the day of that date.
fn day(rt: &impl Print, n: u64) -> io::Result<()> {
    match calendar::to_date(n) {
        Ok(d) => {
            print!(rt; "{n}: {d} is ")?;
            number_of(rt, d)
        }
        Err(e) => println!(rt; "{n}: {e}"),
    }
}

// Days from the first on, so far apart that months and years differ.
pub fn spread(rt: &impl Print) -> io::Result<()> {
    for n in (0..=scope::LAST_DAY).step_by(997) {
        day(rt, n)?;
    }
    Ok(())
}

// Both ends of the years and of February, in leap years and in others, and both ends of all days: the days from one on, up to another.
const EDGES: [(u64, u64); 10] = [
    (0, 3),
    (30, 33),
    (57, 62),
    (364, 369),
    (423, 426),
    (730, 732),
    (36522, 36527),
    (36582, 36586),
    (36889, 36892),
    (73046, 73050),
];

pub fn edges(rt: &impl Print) -> io::Result<()> {
    for (first, end) in EDGES {
        for n in first..end {
            day(rt, n)?;
        }
    }
    day(rt, u64::MAX)
}

// Dates that are refused, or all but refused.
const DATES: [(u64, u64, u64); 18] = [
    (2100, 2, 28),
    (2100, 2, 29),
    (2000, 2, 29),
    (2000, 2, 30),
    (2023, 2, 29),
    (2024, 4, 30),
    (2024, 4, 31),
    (2024, 8, 31),
    (2024, 8, 32),
    (2024, 0, 1),
    (2024, 13, 1),
    (2024, 1, 0),
    (1999, 12, 31),
    (2200, 1, 1),
    (0, 0, 0),
    (u64::MAX, 12, 31),
    (2024, u64::MAX, 31),
    (2024, 12, u64::MAX),
];

pub fn refusals(rt: &impl Print) -> io::Result<()> {
    for (year, month, day) in DATES {
        let d = Date { year, month, day };
        print!(rt; "{d}: ")?;
        number_of(rt, d)?;
    }
    Ok(())
}
