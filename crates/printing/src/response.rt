// What is printed for an input: the file in it is judged, with positions of 0 and room for any report.
ghost use Rattle.std.specs.Prelude.{◌≡◌, ◌+◌, ◌*◌, length};
ghost use Rattle.judging.specs.Outcome.{outcome};
ghost use Rattle.refusing.specs.Checking.{call_of};
ghost use Rattle.rules.specs.Terms.{dated};
ghost use Rattle.frame.specs.Frame.{most_part};
ghost use Rattle.printing.specs.Response.{most_response, zeros, outcome_text, call_with};
ghost use Rattle.printing.specs.Writing.{PrintedWithin, PartsFit};

use frame::MOST_PART;
use rules::Terms;

// Has a file judged, and prints the answer.
fn put_answer(
    out: &mut [u8],
    date: u32,
    sheet: &[u8],
    table: &[u8],
    register: &mut [u8],
    positions: &mut [u8],
    report: &mut [u8],
) -> usize
    ensures { PrintedWithin (2 * length sheet.now + 6 * length positions.old + 13) out.old out.new 0 result (outcome_text (outcome (call_of (dated date) sheet.now table.now register.old positions.old report.old))) }
{
    match judging::judge(Terms { date }, sheet, table, register, positions, report) {
        Err(refusal) => figures::put_refusal(out, 0, refusing::number_of(refusal)),
        Ok(length) => sections::put_judged(
            out,
            0,
            register,
            positions,
            wire::text_at(report, 0, length),
        ),
    }
}

// Room for a part, and for what is said of one.
fn space() -> [u8; MOST_PART]
    ensures { result ≡ zeros most_part }
{
    [0u8; MOST_PART]
}

// Makes the spaces: a copy of the register, and a position for each row.
pub(crate) fn put_judgement(
    out: &mut [u8],
    date: u32,
    sheet: &[u8],
    table: &[u8],
    given: &[u8],
) -> usize
    requires { PartsFit sheet.now table.now given.now }
    ensures { PrintedWithin most_response out.old out.new 0 result (outcome_text (outcome (call_with date sheet.now table.now given.now))) }
{
    let mut register = space();
    let mut positions = space();
    let mut report = space();
    writing::put_text(&mut register, 0, given);
    let taken = given.len();
    let places = positions::POSITION_WIDTH * routing::rows(table);
    put_answer(
        out,
        date,
        sheet,
        table,
        &mut register[..taken],
        &mut positions[..places],
        &mut report,
    )
}
