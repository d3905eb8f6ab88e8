// The bulks of a file, one after the other.
ghost use Rattle.std.specs.Prelude.{◌≡◌, ◌+◌};
ghost use Rattle.index.specs.Ready.{Ready, AnewReady};
ghost use Rattle.directory.specs.Ready.{Made};
ghost use Rattle.tally.specs.Tally.{totals_of};
ghost use Rattle.messages.specs.Ready.{state_of, SectionReady};
ghost use Rattle.judging.specs.Judgement.{bulk_outcome};
ghost use Rattle.judging.specs.Ready.{outcome_number, bulk_in, HeaderReady, BulkSpace, BulkTold, RecordTold, BulksReady, BulksTold};

use messages::{Asked, Ruling};
use report::Places;
use sheet::{BulkRead, Contents, Header, Section, Walk};
use tally::Tally;

// What a bulk's line tells of it, each outcome with its number; a message has others.
#[derive(Debug, Clone, Copy, PartialEq, Eq)]
enum Outcome {
    Accepted = 0,
    Partial = 1,
    Rejected = 2,
}

impl Outcome {
    fn number(self) -> u8
        ensures { result ≡ outcome_number self }
    {
        self as u8
    }
}

fn bulk_outcome(fallen: bool, tally: Tally) -> Outcome
    ensures { outcome_number result ≡ bulk_outcome fallen (totals_of tally) }
{
    if fallen {
        Outcome::Rejected
    } else if tally.rejected.number.0 == 0 {
        Outcome::Accepted
    } else if tally.accepted.number.0 == 0 {
        Outcome::Rejected
    } else {
        Outcome::Partial
    }
}

// Records a bulk if one of its messages was accepted. The slots that were read for it.
fn record_bulk(
    indexed: bool,
    register: &mut [u8],
    index: &mut [u8],
    key: &[u8],
    accepted: u32,
) -> u32
    requires { AnewReady indexed register.old index.old key.now }
    ensures { RecordTold indexed register.old index.old key.now accepted register.new index.new result }
{
    if accepted != 0 {
        return index::enter_anew(indexed, register, index, key);
    }
    0
}

// Judges one bulk, the messages of which are those of the section. Its line and its own section go to their places in the report. The slots
// that were read for it.
// `indexed` stands beside `index` as `index::seek` takes both. Tried: a struct of the `&mut` slices; its caller is not proved to know what is
// left in each.
fn judge_bulk(
    asked: &Asked,
    indexed: bool,
    register: &mut [u8],
    index: &mut [u8],
    positions: &mut [u8],
    report: &mut [u8],
    header: Header,
    section: Section,
    places: Places,
) -> u64
    requires { (HeaderReady asked.now.sheet.now asked.now.table.now positions.old header) × (SectionReady asked.now.sheet.now header.kind section) × (BulkSpace report.old section.number places) × (Ready indexed register.old index.old (section.number + 1)) × (Made asked.now.terms.date asked.now.table.now asked.now.directory.now) }
    ensures { BulkTold asked.now.terms asked.now.table.now indexed (bulk_in asked.now.sheet.now header section) (state_of register.old positions.old) index.old report.old places register.new index.new positions.new report.new result }
{
    let terms = asked.terms;
    let sheet = asked.sheet;
    let table = asked.table;
    let sender = header.sender(sheet);
    let identifier = header.identifier(sheet);
    let key = register::key_of(sender, identifier, register::BULK);
    let sought = index::seek(indexed, register, index, &key);
    let row = directory::head_office_row(terms.date, table, asked.directory, sender);
    let sum = messages::sum_of(sheet, header.kind, section);
    let n = section.number;
    let faults = faults::bulk_faults(
        terms,
        sheet,
        table,
        header,
        row,
        sought.there,
        n as u64,
        sum,
    );
    let fallen = faults != 0;
    let at = places.section;
    report::put_count(report, at, n);
    let from = report::lines_at(at);
    let counts = messages::judge_messages(
        asked,
        indexed,
        register,
        index,
        positions,
        &mut report[from..],
        Ruling {
            header,
            row,
            fallen,
        },
        section,
    );
    let tally = counts.tally;
    let outcome = bulk_outcome(fallen, tally).number();
    report::put_bulk_line(report, places.line, identifier, outcome, faults, tally);
    let again = record_bulk(indexed, register, index, &key, tally.accepted.number.0);
    counts.slots + (sought.ended.read as u64 + again as u64)
}

// Judges all bulks of a whole sheet. The report's count is written before. The slots that were read for them.
pub(crate) fn judge_bulks(
    asked: &Asked,
    indexed: bool,
    register: &mut [u8],
    index: &mut [u8],
    positions: &mut [u8],
    report: &mut [u8],
    contents: Contents,
) -> u64
    requires { (BulksReady asked.now.sheet.now asked.now.table.now positions.old report.old contents) × (Ready indexed register.old index.old (contents.bulks + contents.messages)) × (Made asked.now.terms.date asked.now.table.now asked.now.directory.now) }
    ensures { BulksTold asked.now.terms asked.now.sheet.now asked.now.table.now indexed contents.bulks (state_of register.old positions.old) index.old report.old register.new index.new positions.new report.new result }
{
    let sheet = asked.sheet;
    let mut walk = Walk::start(sheet);
    let mut places = Places::first(report, contents.bulks);
    let mut slots: u64 = 0;
    for _k in 0..contents.bulks {
        let BulkRead {
            header,
            section,
            next,
        } = walk.bulk(sheet);
        slots += judge_bulk(
            asked, indexed, register, index, positions, report, header, section, places,
        );
        walk = next;
        places = places.next(report, section.number);
    }
    slots
}
