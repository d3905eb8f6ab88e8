// The judge: whether a file is turned away, and if not, the judgement of each bulk and message. It searches the register plainly or by an
// index of it, which can be built here. `judge`, `judge_indexed` and `build_index` may be called with anything.
#![tactic(auto)]

mod bulks;

ghost use Rattle.std.specs.Prelude.{◌≡◌};
ghost use Rattle.refusing.specs.Checking.{call_of};
ghost use Rattle.judging.specs.Outcome.{left, outcome, answer_number, answer_length};
ghost use Rattle.judging.specs.Indexed.{indexed_left, indexed_outcome, built_left, index_built, building_number};
ghost use Rattle.judging.specs.Ready.{outcome_by};

use messages::Asked;
use refusing::{Lent, Refusal};
use rules::Terms;

// What the judgement of a file by an index comes to: the length of the report, and the slots that the searches read.
#[derive(Debug, Clone, Copy, PartialEq, Eq)]
pub struct Judged {
    pub length: usize,
    pub slots: u64,
}

// The one judgement, by an index or without.
// `indexed` stands beside `index` as `index::seek` takes both. Tried: a struct of the `&mut` slices; its caller is not proved to know what is
// left in each.
fn judge_by<'a>(
    terms: Terms,
    sheet: &'a [u8],
    table: &'a [u8],
    indexed: bool,
    register: &mut [u8],
    index: &mut [u8],
    positions: &mut [u8],
    report: &mut [u8],
) -> Result<Judged, Refusal>
    ensures { indexed_left result register.new positions.new report.new index.new ≡ outcome_by indexed (call_of terms sheet.now table.now register.old positions.old report.old) index.old }
{
    let lent = indexed.then_some(&*index);
    let contents = refusing::check(Lent {
        terms,
        sheet,
        table,
        register,
        positions,
        report,
        index: lent,
    })?;
    report::put_count(report, 0, contents.bulks);
    let mut directory = [0u8; directory::LENGTH];
    directory::make(terms.date, table, &mut directory);
    let asked = Asked {
        terms,
        sheet,
        table,
        directory: &directory,
    };
    let slots = bulks::judge_bulks(
        &asked, indexed, register, index, positions, report, contents,
    );
    let length = report::space_for(contents.bulks, contents.messages);
    Ok(Judged { length, slots })
}

// Judges a file. Anything may be handed over: a refusal leaves every byte of the register, the positions and the report as it was.
pub fn judge(
    terms: Terms,
    sheet: &[u8],
    table: &[u8],
    register: &mut [u8],
    positions: &mut [u8],
    report: &mut [u8],
) -> Result<usize, Refusal>
    ensures { left result register.new positions.new report.new ≡ outcome (call_of terms sheet.now table.now register.old positions.old report.old) }
{
    // Lent in place of an index: nothing reads or writes it.
    let none = &mut [];
    let judged = judge_by(
        terms, sheet, table, false, register, none, positions, report,
    )?;
    Ok(judged.length)
}

// Judges a file by an index of the register, which is kept as entries are added. A refusal leaves every byte of it as it was too.
pub fn judge_indexed(
    terms: Terms,
    sheet: &[u8],
    table: &[u8],
    register: &mut [u8],
    positions: &mut [u8],
    report: &mut [u8],
    index: &mut [u8],
) -> Result<Judged, Refusal>
    ensures { indexed_left result register.new positions.new report.new index.new ≡ indexed_outcome (call_of terms sheet.now table.now register.old positions.old report.old) index.old }
{
    judge_by(
        terms, sheet, table, true, register, index, positions, report,
    )
}

// Builds the index of a register. A refusal leaves every byte of it as it was.
pub fn build_index(register: &[u8], index: &mut [u8]) -> Result<(), Refusal>
    ensures { built_left result index.new ≡ index_built register.now index.old }
{
    if !register::well_formed(register) {
        return Err(Refusal::Register);
    }
    if index.len() != index::length_for(register) {
        return Err(Refusal::IndexLength);
    }
    index::build(register, index);
    Ok(())
}

// The refusal's number, or 0 for a file that was judged. A function here and below: no `From` may stand between types that are not this
// crate's.
pub fn number_of(answer: Result<usize, Refusal>) -> u32
    ensures { result ≡ answer_number answer }
{
    match answer {
        Ok(_) => 0,
        Err(refusal) => refusing::number_of(refusal),
    }
}

// The report's length, or 0 with a refusal.
pub fn length_of(answer: Result<usize, Refusal>) -> usize
    ensures { result ≡ answer_length answer }
{
    answer.unwrap_or(0)
}

// The refusal's number, or 0 for an index that was built.
pub fn number_built(building: Result<(), Refusal>) -> u32
    ensures { result ≡ building_number building }
{
    match building {
        Ok(()) => 0,
        Err(refusal) => refusing::number_of(refusal),
    }
}
