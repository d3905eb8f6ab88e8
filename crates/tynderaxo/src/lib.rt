// The doors: the proved judge, plain and with an index, lookup, reader and open days, each taking and giving what crosses to C, and nothing else. The crate
// tynderaxo_c exports each of them to C, under its own name and with its own contract: a library exports nothing itself.
#![tactic(auto)]

ghost use Rattle.std.specs.Prelude.{◌≡◌};
ghost use Rattle.judging.specs.Outcome.{outcome};
ghost use Rattle.judging.specs.Indexed.{indexed_outcome, index_built};
ghost use Rattle.refusing.specs.Checking.{call_of};
ghost use Rattle.rules.specs.Terms.{dated};
ghost use Rattle.routing.specs.Lookup.{lookup};
ghost use Rattle.reading.specs.Reading.{reads};
ghost use Rattle.opendays.specs.Questions.{open_day_answer, next_open_day_answer, open_days_answer};
ghost use Rattle.tynderaxo.specs.Doors.{door_outcome, indexed_door_outcome, routed_by, read_outcome, in_numbers, day_told, day_in_numbers};

use opendays::Unanswered;
use rules::Terms;

// A refusal's number and the length 0, or 0 and the report's length.
#[repr(C)]
#[derive(Clone, Copy)]
pub struct TynderaxoAnswer {
    pub number: u32,
    pub length: u64,
}

// The same, and the slots that the searches read: 0 with a refusal.
#[repr(C)]
#[derive(Clone, Copy)]
pub struct TynderaxoIndexedAnswer {
    pub number: u32,
    pub length: u64,
    pub slots: u64,
}

// A refusal's number, or 0 with whether a row was found, its place, and whether it is reachable.
#[repr(C)]
#[derive(Clone, Copy)]
pub struct TynderaxoRoute {
    pub number: u32,
    pub found: u32,
    pub row: u32,
    pub reachable: u32,
}

// A refusal's number and its place, or 0 and the sheet's length.
#[repr(C)]
#[derive(Clone, Copy)]
pub struct TynderaxoReadAnswer {
    pub number: u32,
    pub length: u64,
    pub at: u64,
}

// A refusal's number and the value 0, or 0 and what was asked.
#[repr(C)]
#[derive(Clone, Copy)]
pub struct TynderaxoDay {
    pub number: u32,
    pub value: u32,
}

pub fn tynderaxo_judge(
    date: u32,
    sheet: &[u8],
    table: &[u8],
    register: &mut [u8],
    positions: &mut [u8],
    report: &mut [u8],
) -> TynderaxoAnswer
    ensures { door_outcome result register.new positions.new report.new ≡ outcome (call_of (dated date) sheet.now table.now register.old positions.old report.old) }
{
    let answer = judging::judge(Terms { date }, sheet, table, register, positions, report);
    TynderaxoAnswer {
        number: judging::number_of(answer),
        length: judging::length_of(answer) as u64,
    }
}

pub fn tynderaxo_judge_indexed(
    date: u32,
    sheet: &[u8],
    table: &[u8],
    register: &mut [u8],
    positions: &mut [u8],
    report: &mut [u8],
    index: &mut [u8],
) -> TynderaxoIndexedAnswer
    ensures { indexed_door_outcome result register.new positions.new report.new index.new ≡ indexed_outcome (call_of (dated date) sheet.now table.now register.old positions.old report.old) index.old }
{
    match judging::judge_indexed(
        Terms { date },
        sheet,
        table,
        register,
        positions,
        report,
        index,
    ) {
        Ok(judged) => TynderaxoIndexedAnswer {
            number: 0,
            length: judged.length as u64,
            slots: judged.slots,
        },
        Err(refusal) => TynderaxoIndexedAnswer {
            number: refusing::number_of(refusal),
            length: 0,
            slots: 0,
        },
    }
}

// The number of a refusal, 4 or 12, or 0 for an index that was built.
pub fn tynderaxo_build_index(register: &[u8], index: &mut [u8]) -> u32
    ensures { record { number = result; index = index.new } ≡ index_built register.now index.old }
{
    judging::number_built(judging::build_index(register, index))
}

pub fn tynderaxo_lookup(date: u32, table: &[u8], bic: &[u8]) -> TynderaxoRoute
    ensures { routed_by result ≡ lookup date table.now bic.now }
{
    match routing::lookup(date, table, bic) {
        Ok(Some(row)) => TynderaxoRoute {
            number: 0,
            found: 1,
            row: row.place as u32,
            reachable: row.reachable as u32,
        },
        Ok(None) => TynderaxoRoute {
            number: 0,
            found: 0,
            row: 0,
            reachable: 0,
        },
        Err(refusal) => TynderaxoRoute {
            number: routing::number_of(refusal),
            found: 0,
            row: 0,
            reachable: 0,
        },
    }
}

pub fn tynderaxo_read(document: &[u8], sheet: &mut [u8]) -> TynderaxoReadAnswer
    ensures { read_outcome result sheet.new ≡ in_numbers (reads document.now sheet.old) }
{
    let reading = reading::read(document, sheet);
    TynderaxoReadAnswer {
        number: reading::number_of(reading),
        length: reading::length_of(reading) as u64,
        at: reading::place_in(reading) as u64,
    }
}

impl From<Result<u32, Unanswered>> for TynderaxoDay {
    ghost from_gives = { λ answer day. day_told day ≡ day_in_numbers answer };

    fn from(answer: Result<u32, Unanswered>) -> TynderaxoDay {
        TynderaxoDay {
            number: opendays::number_of(answer),
            value: opendays::value_of(answer),
        }
    }
}

pub fn tynderaxo_open_day(date: u32) -> TynderaxoDay
    ensures { day_told result ≡ day_in_numbers (open_day_answer date) }
{
    TynderaxoDay::from(opendays::open_day(date))
}

pub fn tynderaxo_next_open_day(date: u32) -> TynderaxoDay
    ensures { day_told result ≡ day_in_numbers (next_open_day_answer date) }
{
    TynderaxoDay::from(opendays::next_open_day(date))
}

pub fn tynderaxo_open_days(from: u32, to: u32) -> TynderaxoDay
    ensures { day_told result ≡ day_in_numbers (open_days_answer from to) }
{
    TynderaxoDay::from(opendays::open_days(from, to))
}
