// The messages of one bulk: their true sum, and the judgement of each.
#![tactic(auto)]

mod asked;

ghost use Rattle.std.specs.Prelude.{◌≡◌, cond, ◌*◌, ◌≤◌, length};
ghost use Rattle.routing.specs.Lookup.{option_of};
ghost use Rattle.sheet.specs.Reading.{header_in, message_in};
ghost use Rattle.index.specs.Ready.{Ready};
ghost use Rattle.directory.specs.Ready.{Made};
ghost use Rattle.positions.specs.Positions.{pays};
ghost use Rattle.tally.specs.Tally.{cents_of, totals_of, with_accepted, with_rejected};
ghost use Rattle.report.specs.Line.{message_line_width};
ghost use Rattle.messages.specs.Messages.{message_outcome, sum_of};
ghost use Rattle.messages.specs.Ready.{outcome_number, state_of, messages_of, SectionReady, PayReady, CountReady, RulingReady, MessageReady, MessageTold, MessagesTold};

pub use asked::Asked;
use sheet::{Cursor, Header, Message, Section};
use tally::{Cents, Tally};

// What a message's line tells of it, each outcome with its number; one fell with its bulk.
#[derive(Debug, Clone, Copy, PartialEq, Eq)]
enum Outcome {
    Accepted = 0,
    Rejected = 1,
    Fell = 2,
}

impl Outcome {
    fn number(self) -> u8
        ensures { result ≡ outcome_number self }
    {
        self as u8
    }
}

// What is known of a bulk when its messages are judged: its header, its sender's row, and whether it fell.
#[derive(Clone, Copy)]
pub struct Ruling {
    pub header: Header,
    pub row: Option<usize>,
    pub fallen: bool,
}

// What became of a message: whether it was accepted, and the slots that the search of its key read.
#[derive(Clone, Copy)]
struct Verdict {
    accepted: bool,
    slots: u32,
}

// What a bulk's messages come to, and the slots that were read for them.
#[derive(Clone, Copy)]
pub struct Counts {
    pub tally: Tally,
    pub slots: u64,
}

// The true sum of the amounts of a section's messages, which are of a kind.
pub fn sum_of(sheet: &[u8], kind: u8, section: Section) -> Cents
    requires { SectionReady sheet.now kind section }
    ensures { cents_of result ≡ sum_of (messages_of sheet.now kind section) }
{
    let mut sum = Cents(0, 0);
    let mut cursor = Cursor { at: section.at };
    for _j in 0..section.number {
        let message = cursor.message(sheet, kind);
        sum = sum.plus(message.amount);
        cursor = message.next;
    }
    sum
}

// A payment from one row to another, where both were found.
fn pay(table: &[u8], positions: &mut [u8], from: Option<usize>, to: Option<usize>, cents: u64)
    requires { PayReady table.now positions.old (option_of from) (option_of to) }
    ensures { positions.new ≡ pays positions.old (option_of from) (option_of to) cents }
{
    if let (Some(a), Some(b)) = (from, to) {
        positions::pay(positions, a, b, cents);
    }
}

fn message_outcome(fallen: bool, faults: u16) -> Outcome
    ensures { outcome_number result ≡ message_outcome fallen faults }
{
    if fallen {
        Outcome::Fell
    } else if faults == 0 {
        Outcome::Accepted
    } else {
        Outcome::Rejected
    }
}

// A message counts with its amount, accepted or not.
fn count_message(tally: Tally, accepted: bool, amount: u64) -> Tally
    requires { CountReady (totals_of tally) }
    ensures { totals_of result ≡ cond accepted (with_accepted (totals_of tally) amount) (with_rejected (totals_of tally) amount) }
{
    if accepted {
        tally.accept(amount)
    } else {
        tally.reject(amount)
    }
}

// Judges one message and writes its line at place `to` of `out`.
// `indexed` stands beside `index` as `index::seek` takes both. Tried: a struct of the `&mut` slices; its caller is not proved to know what is
// left in each.
fn judge_message(
    asked: &Asked,
    indexed: bool,
    register: &mut [u8],
    index: &mut [u8],
    positions: &mut [u8],
    out: &mut [u8],
    ruling: Ruling,
    message: Message,
    to: usize,
) -> Verdict
    requires { (RulingReady asked.now.terms asked.now.sheet.now asked.now.table.now positions.old ruling) × (MessageReady asked.now.sheet.now message out.old to) × (Ready indexed register.old index.old 1) × (Made asked.now.terms.date asked.now.table.now asked.now.directory.now) }
    ensures { MessageTold asked.now.terms asked.now.table.now (header_in asked.now.sheet.now ruling.header) ruling.fallen indexed (message_in asked.now.sheet.now message) (state_of register.old positions.old) index.old to out.old register.new index.new positions.new out.new result }
{
    let Ruling {
        header,
        row,
        fallen,
    } = ruling;
    let terms = asked.terms;
    let sheet = asked.sheet;
    let table = asked.table;
    let identifier = message.identifier(sheet);
    let key = register::key_of(header.sender(sheet), identifier, register::MESSAGE);
    let sought = index::seek(indexed, register, index, &key);
    let found = directory::route(terms.date, table, asked.directory, message.receiver(sheet));
    let faults = faults::message_faults(terms, sheet, table, header, message, found, sought.there);
    let outcome = message_outcome(fallen, faults).number();
    report::put_message_line(out, to, identifier, outcome, faults);
    let slots = sought.ended.read;
    if !fallen && faults == 0 {
        index::enter(indexed, register, index, &key, sought);
        pay(table, positions, row, found, message.amount);
        Verdict {
            accepted: true,
            slots,
        }
    } else {
        Verdict {
            accepted: false,
            slots,
        }
    }
}

// Judges a section's messages. `out` is lent from behind the section's count; the lines are written from its start.
pub fn judge_messages(
    asked: &Asked,
    indexed: bool,
    register: &mut [u8],
    index: &mut [u8],
    positions: &mut [u8],
    out: &mut [u8],
    ruling: Ruling,
    section: Section,
) -> Counts
    requires { (RulingReady asked.now.terms asked.now.sheet.now asked.now.table.now positions.old ruling) × (SectionReady asked.now.sheet.now ruling.header.kind section) × (message_line_width * section.number ≤ length out.old) × (Ready indexed register.old index.old section.number) × (Made asked.now.terms.date asked.now.table.now asked.now.directory.now) }
    ensures { MessagesTold asked.now.terms asked.now.table.now (header_in asked.now.sheet.now ruling.header) ruling.fallen indexed (messages_of asked.now.sheet.now ruling.header.kind section) (state_of register.old positions.old) index.old out.old register.new index.new positions.new out.new result }
{
    let sheet = asked.sheet;
    let mut tally = Tally::new();
    let mut slots: u64 = 0;
    let mut cursor = Cursor { at: section.at };
    for j in 0..section.number {
        let message = cursor.message(sheet, ruling.header.kind);
        let to = report::line_place(j);
        let verdict = judge_message(
            asked, indexed, register, index, positions, out, ruling, message, to,
        );
        tally = count_message(tally, verdict.accepted, message.amount);
        slots += verdict.slots as u64;
        cursor = message.next;
    }
    Counts { tally, slots }
}
