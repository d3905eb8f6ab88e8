// Dates of the Gregorian calendar, written as the number YYYYMMDD. Proved: each function gives what the definition of its name in specs/
// says, `leap`, `days_in` and `is_date` on every number, the others on dates. That the definitions fit the calendar is for a reader to see
// there, and in proofs/Cases.antt.
#![tactic(auto)]

ghost use Rattle.std.specs.Prelude.{◌≡◌, true, ◌≤◌};
ghost use Rattle.calendar.specs.Date.{leap, days_in, is_date, days_of_years, days_of_months, day_number};
ghost use Rattle.calendar.specs.Days.{date_of, day_after, weekday};

// `first_year` and `last_year` of the definitions.
const FIRST_YEAR: u32 = 2000;

const LAST_YEAR: u32 = 2299;

// The ends of the week, which is counted from Sunday on; the first day of FIRST_YEAR was a Saturday. Numbers and no enum, since the
// clause of `weekday` tells one.
pub const SUNDAY: u32 = 0;

pub const SATURDAY: u32 = 6;

// The years before FIRST_YEAR that are leap years by the same rule.
const LEAPS_BEFORE: u32 = 484;

// The days before each month in a year without a 29 February, from January at place 1 on.
const DAYS_BEFORE: [u32; 13] = [0, 0, 31, 59, 90, 120, 151, 181, 212, 243, 273, 304, 334];

// Whether the year has a 29 February.
pub fn leap(y: u32) -> bool
    ensures { result ≡ leap y }
{
    (y % 4 == 0) & ((y % 100 != 0) | (y % 400 == 0))
}

// The days of a month of the year: 0 where there is no such month, so that no day is in it.
pub fn days_in(y: u32, m: u32) -> u32
    ensures { result ≡ days_in y m }
{
    if m == 2 {
        if leap(y) { 29 } else { 28 }
    } else if (m == 4) | (m == 6) | (m == 9) | (m == 11) {
        30
    } else if (1 <= m) & (m <= 12) {
        31
    } else {
        0
    }
}

// Whether the number is a date from 20000101 to 22991231.
pub fn is_date(d: u32) -> bool
    ensures { result ≡ is_date d }
{
    let year = d / 10000;
    let month = d / 100 % 100;
    let day = d % 100;
    (FIRST_YEAR <= year) & (year <= LAST_YEAR) & (1 <= day) & (day <= days_in(year, month))
}

// The days of the first n years: 365 each, and one more for each leap year up to the last of them, less the 484 before 2000.
fn days_of_years(n: u32) -> u32
    requires { n ≤ 300 }
    ensures { result ≡ days_of_years n }
{
    let y = FIRST_YEAR - 1 + n;
    365 * n + (y / 4 + y / 400 - y / 100) - LEAPS_BEFORE
}

// The days of the year that lie in months before m.
fn days_of_months(y: u32, m: u32) -> u32
    requires { m ≤ 12 }
    ensures { result ≡ days_of_months y m }
{
    let before = DAYS_BEFORE[m as usize];
    if (2 < m) & leap(y) {
        before + 1
    } else {
        before
    }
}

// How many days a date lies after 1 January 2000. A date is a number of which `is_date` holds, and no type: `day_after` tells of the last
// one a number that is none.
pub fn day_number(d: u32) -> u32
    requires { is_date d ≡ true }
    ensures { result ≡ day_number d }
{
    days_of_years(d / 10000 - FIRST_YEAR) + days_of_months(d / 10000, d / 100 % 100) + (d % 100 - 1)
}

// The day of the week of a date, from Sunday as 0 to Saturday as 6.
pub fn weekday(d: u32) -> u32
    requires { is_date d ≡ true }
    ensures { result ≡ weekday (day_number d) }
{
    (day_number(d) + SATURDAY) % 7
}

// The number that is written for a day of a month of a year.
pub fn date_of(y: u32, m: u32, d: u32) -> u32
    requires { (y ≤ 2300) × (m ≤ 99) × (d ≤ 99) }
    ensures { result ≡ date_of y m d }
{
    y * 10000 + m * 100 + d
}

// The date that follows: past the last date of the calendar it is none.
pub fn day_after(d: u32) -> u32
    requires { is_date d ≡ true }
    ensures { result ≡ day_after d }
{
    let year = d / 10000;
    let month = d / 100 % 100;
    if d % 100 < days_in(year, month) {
        d + 1
    } else if month < 12 {
        date_of(year, month + 1, 1)
    } else {
        date_of(year + 1, 1, 1)
    }
}
