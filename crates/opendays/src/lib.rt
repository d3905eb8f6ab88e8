// The days on which TARGET is open, and three questions of them. Proved: each answer is what the definition of its name says, of every
// number that is asked. It knows nothing of files, and can be had without the judge.
#![tactic(auto)]

ghost use Rattle.std.specs.Prelude.{◌≡◌, true, false, suc, ◌-◌, ◌≤◌, ◌<◌, MatchResult};
ghost use Rattle.calendar.specs.Date.{year, is_date};
ghost use Rattle.calendar.specs.Days.{YearOf, all_days};
ghost use Rattle.opendays.specs.OpenDay.{weekend, holidays, holiday, open_day};
ghost use Rattle.opendays.specs.Questions.{open_days, open_day_answer, next_open_day_answer, open_days_answer, number_of, value_of};
ghost use Rattle.opendays.specs.Counting.{Forward, workdays_before, closed_at, closed_in, closed_over};

// `last_date` of the definitions.
const LAST_DATE: u32 = 22991231;

// Why a question has no answer.
#[derive(Debug, Clone, Copy, PartialEq, Eq)]
pub enum Unanswered {
    NoDate,
    NoneLater,
}

// ---- a day

fn weekend(d: u32) -> bool
    requires { is_date d ≡ true }
    ensures { result ≡ weekend d }
{
    let w = calendar::weekday(d);
    (w == calendar::SATURDAY) | (w == calendar::SUNDAY)
}

// The holidays of a year, in their order.
fn holidays(y: u32) -> [u32; 6]
    requires { YearOf y }
    ensures { result ≡ holidays y }
{
    let sunday = easter::easter_day(y);
    [
        calendar::date_of(y, 1, 1),
        easter::march_date(y, sunday - 2),
        easter::march_date(y, sunday + 1),
        calendar::date_of(y, 5, 1),
        calendar::date_of(y, 12, 25),
        calendar::date_of(y, 12, 26),
    ]
}

#[tactic(auto, using(crate::proofs::Laws::year_of))]
fn holiday(d: u32) -> bool
    requires { is_date d ≡ true }
    ensures { result ≡ holiday d }
{
    holidays(d / 10000).contains(&d)
}

// Whether the number is an open day.
#[tactic(auto, unfolding(crate::specs::OpenDay::open_day))]
pub fn is_open(d: u32) -> bool
    ensures { result ≡ open_day d }
{
    calendar::is_date(d) && !weekend(d) && !holiday(d)
}

// ---- the questions

fn dated(date: u32) -> Result<(), Unanswered>
    ensures { MatchResult result (λ _. is_date date ≡ true) (λ e. (e ≡ Unanswered.NoDate) × (is_date date ≡ false)) }
{
    if calendar::is_date(date) {
        Ok(())
    } else {
        Err(Unanswered::NoDate)
    }
}

// 1 for an open day, 0 for a closed one.
#[tactic(auto, unfolding(crate::specs::Questions::open_day_answer))]
pub fn open_day(date: u32) -> Result<u32, Unanswered>
    ensures { result ≡ open_day_answer date }
{
    dated(date)?;
    Ok(u32::from(is_open(date)))
}

// The first open day after the date.
#[tactic(auto, unfolding(crate::specs::Questions::next_open_day_answer))]
pub fn next_open_day(date: u32) -> Result<u32, Unanswered>
    ensures { result ≡ next_open_day_answer date }
{
    dated(date)?;
    // From date to date: a `for` over the numbers would try the thousands between two years.
    let mut day = date;
    while day < LAST_DATE {
        day = calendar::day_after(day);
        if is_open(day) {
            return Ok(day);
        }
    }
    Err(Unanswered::NoneLater)
}

// How many open days there are from the first date up to the second, which is not counted.
#[tactic(auto, using(crate::proofs::Laws::days_none), unfolding(crate::specs::Questions::open_days_answer))]
pub fn open_days(from: u32, to: u32) -> Result<u32, Unanswered>
    ensures { result ≡ open_days_answer from to }
{
    dated(from)?;
    dated(to)?;
    if from < to {
        Ok(counted(from, to))
    } else {
        Ok(0)
    }
}

// The answer's number: 0, or that of a refusal. A function here and below: no `From` may stand between types that are not this crate's.
pub fn number_of(answer: Result<u32, Unanswered>) -> u32
    ensures { result ≡ number_of answer }
{
    match answer {
        Err(Unanswered::NoDate) => 31,
        Err(Unanswered::NoneLater) => 32,
        Ok(_) => 0,
    }
}

// Its value: 0 with a refusal.
pub fn value_of(answer: Result<u32, Unanswered>) -> u32
    ensures { result ≡ value_of answer }
{
    answer.unwrap_or(0)
}

// ---- counting: by whole weeks, less the holidays of each year that fall into the week

// The days from Monday to Friday among the first n, which begin with a Saturday and a Sunday.
fn workdays_before(n: u32) -> u32
    requires { n < all_days }
    ensures { result ≡ workdays_before n }
{
    n / 7 * 5 + (n % 7).saturating_sub(2)
}

// 1 for a holiday that takes a day from the stretch: it lies there, and on no weekend.
fn closed_at(from: u32, to: u32, h: u32) -> u32
    requires { is_date h ≡ true }
    ensures { (result ≡ closed_at from to h) × (result ≤ 1) }
{
    u32::from((from <= h) & (h < to) & !weekend(h))
}

// The holidays of a year that do.
#[tactic(auto, using(crate::proofs::Stretch::holiday_date))]
fn closed_in(from: u32, to: u32, y: u32) -> u32
    requires { YearOf y }
    ensures { (result ≡ closed_in from to y) × (result ≤ 6) }
{
    // A `for` over them takes four times the instructions: here the month of each is known.
    let days = holidays(y);
    closed_at(from, to, days[0])
        + closed_at(from, to, days[1])
        + closed_at(from, to, days[2])
        + closed_at(from, to, days[3])
        + closed_at(from, to, days[4])
        + closed_at(from, to, days[5])
}

// Those of all years of the stretch.
fn closed_between(from: u32, to: u32) -> u32
    requires { Forward from to }
    ensures { result ≡ closed_over from to (year from) (suc (year to) - year from) }
{
    let mut closed = 0;
    for y in from / 10000..to / 10000 + 1 {
        closed += closed_in(from, to, y);
    }
    closed
}

// The open days of a stretch.
fn counted(from: u32, to: u32) -> u32
    requires { Forward from to }
    ensures { result ≡ open_days from to }
{
    workdays_before(calendar::day_number(to))
        - workdays_before(calendar::day_number(from))
        - closed_between(from, to)
}
