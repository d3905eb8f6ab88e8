// Easter of the years 2000 to 2299. Proved: it is the day that the rule in specs/Easter.antt gives. That this is the rule of the calendar
// is for a reader to see there, and in proofs/Cases.antt.
#![tactic(auto)]

ghost use Rattle.std.specs.Prelude.{◌≡◌, ◌≤◌};
ghost use Rattle.calendar.specs.Date.{last_year};
ghost use Rattle.calendar.specs.Days.{YearOf};
ghost use Rattle.easter.specs.Easter.{march_date, easter_day, easter_sunday};

mod table;

// `first_year` of the definitions.
const FIRST_YEAR: u32 = 2000;

// Easter Sunday of the year.
fn easter_sunday(y: u32) -> u32
    requires { YearOf y }
    ensures { result ≡ easter_sunday y }
{
    table::SUNDAYS[(y - FIRST_YEAR) as usize]
}

// The same as a day counted from 1 March on.
pub fn easter_day(y: u32) -> u32
    requires { YearOf y }
    ensures { result ≡ easter_day y }
{
    let sunday = easter_sunday(y);
    if sunday / 100 % 100 == 3 {
        sunday % 100
    } else {
        sunday % 100 + 31
    }
}

// The date of such a day, so of Good Friday and Easter Monday too.
pub fn march_date(y: u32, n: u32) -> u32
    requires { (y ≤ last_year) × (n ≤ 61) }
    ensures { result ≡ march_date y n }
{
    if n <= 31 {
        calendar::date_of(y, 3, n)
    } else {
        calendar::date_of(y, 4, n - 31)
    }
}
