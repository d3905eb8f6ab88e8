// The faults of a bulk and of a message as masks: every fact is asked, and each is set at its own bit, by name.
#![tactic(auto)]

ghost use Rattle.std.specs.Prelude.{◌≡◌};
ghost use Rattle.masks.specs.Mask.{mask};
ghost use Rattle.sheet.specs.Reading.{header_in, message_in};
ghost use Rattle.tally.specs.Tally.{cents_of};
ghost use Rattle.faults.specs.Faults.{bulk_facts_given, message_facts_given};
ghost use Rattle.faults.specs.Asked.{BulkAsked, MessageAsked};

use rules::Terms;
use sheet::{Header, Message};
use tally::Cents;

// The bits of a bulk's faults. Numbers and no enum: `masks::flag` takes any bit, and would be handed each by a cast.
pub const MARKS_WRONG: u16 = 0;

pub const NO_PARTICIPANT: u16 = 1;

pub const DATE_WRONG: u16 = 2;

pub const BULK_BADLY_FORMED: u16 = 3;

pub const BULK_REPEATED: u16 = 4;

pub const EMPTY: u16 = 5;

pub const NUMBER_WRONG: u16 = 6;

pub const SUM_WRONG: u16 = 7;

pub const DATE_CLOSED: u16 = 8;

// The bits of a message's faults, likewise.
pub const BADLY_FORMED: u16 = 0;

pub const REPEATED: u16 = 1;

pub const RECEIVER_BADLY_FORMED: u16 = 2;

pub const UNREACHABLE: u16 = 3;

pub const AMOUNT_WRONG: u16 = 4;

pub const TELLS_ORIGINAL: u16 = 5;

pub const REASON_UNKNOWN: u16 = 6;

pub const NAME_UNKNOWN: u16 = 7;

pub const RETURNED_AMOUNT_WRONG: u16 = 8;

// The faults of a bulk, whose section holds so many messages with amounts of so many cents. Whether its key stands in the register was
// asked before.
pub fn bulk_faults(
    terms: Terms,
    sheet: &[u8],
    table: &[u8],
    header: Header,
    row: Option<usize>,
    repeats: bool,
    number: u64,
    sum: Cents,
) -> u16
    requires { BulkAsked terms sheet.now table.now header row }
    ensures { result ≡ mask (bulk_facts_given repeats terms table.now (header_in sheet.now header) number (cents_of sum)) }
{
    let identifier = header.identifier(sheet);
    let marks_wrong = rules::marks_wrong(header.marks);
    let no_participant = rules::no_participant(table, row);
    let date_wrong = rules::date_wrong(terms, header.date);
    let badly_formed = wording::badly_formed(identifier);
    let empty = rules::empty(number);
    let number_wrong = rules::number_wrong(header.number, number);
    let sum_wrong = rules::sum_wrong(header.sum, sum);
    let date_closed = rules::date_closed(header.date);
    // a line for each bit, by its name: in an array of facts the place alone would say which bit it is
    let m = masks::flag(0, MARKS_WRONG, marks_wrong);
    let m = masks::flag(m, NO_PARTICIPANT, no_participant);
    let m = masks::flag(m, DATE_WRONG, date_wrong);
    let m = masks::flag(m, BULK_BADLY_FORMED, badly_formed);
    let m = masks::flag(m, BULK_REPEATED, repeats);
    let m = masks::flag(m, EMPTY, empty);
    let m = masks::flag(m, NUMBER_WRONG, number_wrong);
    let m = masks::flag(m, SUM_WRONG, sum_wrong);
    masks::flag(m, DATE_CLOSED, date_closed)
}

// The faults of a message of that bulk.
pub fn message_faults(
    terms: Terms,
    sheet: &[u8],
    table: &[u8],
    header: Header,
    message: Message,
    row: Option<usize>,
    repeats: bool,
) -> u16
    requires { MessageAsked terms sheet.now table.now header message row }
    ensures { result ≡ mask (message_facts_given repeats terms table.now (header_in sheet.now header) (message_in sheet.now message)) }
{
    let kind = header.kind;
    let identifier = message.identifier(sheet);
    let receiver = message.receiver(sheet);
    let reason = message.reason(sheet);
    let name = message.name(sheet);
    let badly_formed = wording::badly_formed(identifier);
    let receiver_badly_formed = rules::receiver_badly_formed(receiver);
    let unreachable = rules::unreachable(table, row);
    let amount_wrong = rules::amount_wrong(message.amount);
    let tells_original = rules::tells_original(kind, message.original, reason, name);
    let reason_unknown = rules::reason_unknown(kind, reason);
    let name_unknown = rules::name_unknown(kind, name);
    let returned_amount_wrong = rules::returned_amount_wrong(
        kind,
        message.amount,
        message.original,
        reason,
    );
    let m = masks::flag(0, BADLY_FORMED, badly_formed);
    let m = masks::flag(m, REPEATED, repeats);
    let m = masks::flag(m, RECEIVER_BADLY_FORMED, receiver_badly_formed);
    let m = masks::flag(m, UNREACHABLE, unreachable);
    let m = masks::flag(m, AMOUNT_WRONG, amount_wrong);
    let m = masks::flag(m, TELLS_ORIGINAL, tells_original);
    let m = masks::flag(m, REASON_UNKNOWN, reason_unknown);
    let m = masks::flag(m, NAME_UNKNOWN, name_unknown);
    masks::flag(m, RETURNED_AMOUNT_WRONG, returned_amount_wrong)
}
