// The doors for C: each function of tynderaxo under C's calling convention, with its contract, and nothing else. A caller owes what
// include/tynderaxo.h says: pointers that are valid for their lengths, and no written buffer over another.
#![tactic(auto)]

ghost use Rattle.std.specs.Prelude.{◌≡◌};
ghost use Rattle.judging.specs.Outcome.{outcome};
ghost use Rattle.judging.specs.Indexed.{indexed_outcome, index_built};
ghost use Rattle.refusing.specs.Checking.{call_of};
ghost use Rattle.rules.specs.Terms.{dated};
ghost use Rattle.routing.specs.Lookup.{lookup};
ghost use Rattle.reading.specs.Reading.{reads};
ghost use Rattle.opendays.specs.Questions.{open_day_answer, next_open_day_answer, open_days_answer};
ghost use Rattle.tynderaxo.specs.Doors.{door_outcome, indexed_door_outcome, routed_by, read_outcome, in_numbers, day_told, day_in_numbers};

use tynderaxo::{
    TynderaxoAnswer, TynderaxoDay, TynderaxoIndexedAnswer, TynderaxoReadAnswer, TynderaxoRoute,
};

#[unsafe(no_mangle)]
pub extern "C" fn tynderaxo_judge(
    date: u32,
    sheet: &[u8],
    table: &[u8],
    register: &mut [u8],
    positions: &mut [u8],
    report: &mut [u8],
) -> TynderaxoAnswer
    ensures { door_outcome result register.new positions.new report.new ≡ outcome (call_of (dated date) sheet.now table.now register.old positions.old report.old) }
{
    tynderaxo::tynderaxo_judge(date, sheet, table, register, positions, report)
}

#[unsafe(no_mangle)]
pub extern "C" fn tynderaxo_judge_indexed(
    date: u32,
    sheet: &[u8],
    table: &[u8],
    register: &mut [u8],
    positions: &mut [u8],
    report: &mut [u8],
    index: &mut [u8],
) -> TynderaxoIndexedAnswer
    ensures { indexed_door_outcome result register.new positions.new report.new index.new ≡ indexed_outcome (call_of (dated date) sheet.now table.now register.old positions.old report.old) index.old }
{
    tynderaxo::tynderaxo_judge_indexed(date, sheet, table, register, positions, report, index)
}

#[unsafe(no_mangle)]
pub extern "C" fn tynderaxo_build_index(register: &[u8], index: &mut [u8]) -> u32
    ensures { record { number = result; index = index.new } ≡ index_built register.now index.old }
{
    tynderaxo::tynderaxo_build_index(register, index)
}

#[unsafe(no_mangle)]
pub extern "C" fn tynderaxo_lookup(date: u32, table: &[u8], bic: &[u8]) -> TynderaxoRoute
    ensures { routed_by result ≡ lookup date table.now bic.now }
{
    tynderaxo::tynderaxo_lookup(date, table, bic)
}

#[unsafe(no_mangle)]
pub extern "C" fn tynderaxo_read(document: &[u8], sheet: &mut [u8]) -> TynderaxoReadAnswer
    ensures { read_outcome result sheet.new ≡ in_numbers (reads document.now sheet.old) }
{
    tynderaxo::tynderaxo_read(document, sheet)
}

#[unsafe(no_mangle)]
pub extern "C" fn tynderaxo_open_day(date: u32) -> TynderaxoDay
    ensures { day_told result ≡ day_in_numbers (open_day_answer date) }
{
    tynderaxo::tynderaxo_open_day(date)
}

#[unsafe(no_mangle)]
pub extern "C" fn tynderaxo_next_open_day(date: u32) -> TynderaxoDay
    ensures { day_told result ≡ day_in_numbers (next_open_day_answer date) }
{
    tynderaxo::tynderaxo_next_open_day(date)
}

#[unsafe(no_mangle)]
pub extern "C" fn tynderaxo_open_days(from: u32, to: u32) -> TynderaxoDay
    ensures { day_told result ≡ day_in_numbers (open_days_answer from to) }
{
    tynderaxo::tynderaxo_open_days(from, to)
}
