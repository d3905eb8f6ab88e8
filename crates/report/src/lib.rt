// The report: the two kinds of line, written and read, and where they stand. It knows nothing of why a line says what it says.
#![tactic(auto)]

ghost use Rattle.std.specs.Prelude.{◌≡◌, ◌+◌, ◌*◌, ◌^◌, ◌≤◌, ◌<◌, length};
ghost use Rattle.std.proofs.lemmas.List.Edits.{sets};
ghost use Rattle.wire.specs.Field.{bytes_of};
ghost use Rattle.tally.specs.Tally.{cents_of, totals_of};
ghost use Rattle.tally.specs.Room.{most_counted};
ghost use Rattle.report.specs.Line.{identifier_width, line_head_width, bulk_line_width, message_line_width, line_head, bulk_line, message_line, identifier_in, outcome_in, faults_in, totals_in, count_width, first_line, sections_place, lines_at, after_lines, bulk_line_at, message_line_at, report_length};
ghost use Rattle.report.specs.Told.{PlacesTold};

use tally::{Cents, Tally};
use wire::COUNT_WIDTH;

const IDENTIFIER_WIDTH: usize = 35;

const OUTCOME_PLACE: usize = IDENTIFIER_WIDTH;

const OUTCOME_WIDTH: usize = 1;

const FAULTS_PLACE: usize = OUTCOME_PLACE + OUTCOME_WIDTH;

const FAULTS_WIDTH: usize = 2;

const LINE_HEAD_WIDTH: usize = FAULTS_PLACE + FAULTS_WIDTH;

const NUMBER_WIDTH: usize = 4;

const ACCEPTED_NUMBER_PLACE: usize = LINE_HEAD_WIDTH;

const ACCEPTED_CENTS_PLACE: usize = ACCEPTED_NUMBER_PLACE + NUMBER_WIDTH;

const ACCEPTED_CENTS_WIDTH: usize = 8;

const REJECTED_NUMBER_PLACE: usize = ACCEPTED_CENTS_PLACE + ACCEPTED_CENTS_WIDTH;

const REJECTED_CENTS_PLACE: usize = REJECTED_NUMBER_PLACE + NUMBER_WIDTH;

// Two bytes for the high half, eight for the low one.
const REJECTED_CENTS_WIDTH: usize = 10;

const BULK_LINE_WIDTH: usize = REJECTED_CENTS_PLACE + REJECTED_CENTS_WIDTH;

const MESSAGE_LINE_WIDTH: usize = LINE_HEAD_WIDTH;

// ---- places

// What the report on so many bulks and messages takes.
#[tactic(auto, unfolding(crate::specs::Line::message_line_width))]
pub fn space_for(bulks: usize, messages: usize) -> usize
    requires { (bulks ≤ most_counted) × (messages ≤ most_counted) }
    ensures { result ≡ report_length bulks messages }
{
    COUNT_WIDTH + (BULK_LINE_WIDTH + COUNT_WIDTH) * bulks + MESSAGE_LINE_WIDTH * messages
}

// Where the next bulk's line and section begin.
#[derive(Clone, Copy)]
pub struct Places {
    pub line: usize,
    pub section: usize,
}

impl Places {
    // Those of the first of so many bulks.
    pub fn first(out: &[u8], bulks: usize) -> Places
        requires { sections_place bulks ≤ length out.now }
        ensures { PlacesTold result first_line (sections_place bulks) }
    {
        Places {
            line: COUNT_WIDTH,
            section: sections_at(bulks),
        }
    }

    // Those of the bulk after one of n messages.
    pub fn next(self, out: &[u8], n: usize) -> Places
        requires { (self.line + bulk_line_width ≤ length out.now) × (after_lines self.section n ≤ length out.now) }
        ensures { PlacesTold result (self.line + bulk_line_width) (after_lines self.section n) }
    {
        Places {
            line: self.line + BULK_LINE_WIDTH,
            section: self.section + COUNT_WIDTH + MESSAGE_LINE_WIDTH * n,
        }
    }
}

// Where the sections begin, after the lines of so many bulks.
pub fn sections_at(bulks: usize) -> usize
    requires { sections_place bulks < 2 ^ 64 }
    ensures { result ≡ sections_place bulks }
{
    COUNT_WIDTH + BULK_LINE_WIDTH * bulks
}

// What a section of n messages takes.
#[tactic(auto, unfolding(crate::specs::Line::message_line_width))]
pub fn section_width(n: usize) -> usize
    requires { n < 2 ^ 32 }
    ensures { result ≡ count_width + message_line_width * n }
{
    COUNT_WIDTH + MESSAGE_LINE_WIDTH * n
}

// Where the lines of a section begin, after its count.
pub fn lines_at(section: usize) -> usize
    requires { lines_at section < 2 ^ 64 }
    ensures { result ≡ lines_at section }
{
    section + COUNT_WIDTH
}

// Where line j stands among the lines of a section.
#[tactic(auto, unfolding(crate::specs::Line::message_line_width))]
pub fn line_place(j: usize) -> usize
    requires { j < 2 ^ 32 }
    ensures { result ≡ message_line_width * j }
{
    MESSAGE_LINE_WIDTH * j
}

// ---- writing

// Writes a number of bulks or of messages from place at on.
pub fn put_count(out: &mut [u8], at: usize, n: usize)
    ensures { out.new ≡ sets out.old at (bytes_of count_width n) }
{
    writing::put_number(out, at, COUNT_WIDTH, n as u64);
}

// Writes what both kinds of line begin with from place at on. A struct of the three would be made for one call each: no plainer. The
// outcome is a byte and no enum, since `put_message_line` and `put_bulk_line` take any.
fn put_head(out: &mut [u8], at: usize, identifier: &[u8], outcome: u8, faults: u16)
    requires { (at + line_head_width ≤ length out.old) × (length identifier.now ≡ identifier_width) }
    ensures { out.new ≡ sets out.old at (line_head identifier.now outcome faults) }
{
    writing::put_text(out, at, identifier);
    writing::put_number(out, at + OUTCOME_PLACE, OUTCOME_WIDTH, outcome as u64);
    writing::put_number(out, at + FAULTS_PLACE, FAULTS_WIDTH, faults as u64);
}

// Writes a message line from place at on.
pub fn put_message_line(out: &mut [u8], at: usize, identifier: &[u8], outcome: u8, faults: u16)
    requires { (at + message_line_width ≤ length out.old) × (length identifier.now ≡ identifier_width) }
    ensures { out.new ≡ sets out.old at (message_line identifier.now outcome faults) }
{
    put_head(out, at, identifier, outcome, faults);
}

// Writes a bulk line from place at on.
pub fn put_bulk_line(
    out: &mut [u8],
    at: usize,
    identifier: &[u8],
    outcome: u8,
    faults: u16,
    tally: Tally,
)
    requires { (at + bulk_line_width ≤ length out.old) × (length identifier.now ≡ identifier_width) }
    ensures { out.new ≡ sets out.old at (bulk_line identifier.now outcome faults (totals_of tally)) }
{
    put_head(out, at, identifier, outcome, faults);
    writing::put_number(
        out,
        at + ACCEPTED_NUMBER_PLACE,
        NUMBER_WIDTH,
        tally.accepted.number.0 as u64,
    );
    writing::put_number(
        out,
        at + ACCEPTED_CENTS_PLACE,
        ACCEPTED_CENTS_WIDTH,
        tally.accepted.cents.1,
    );
    writing::put_number(
        out,
        at + REJECTED_NUMBER_PLACE,
        NUMBER_WIDTH,
        tally.rejected.number.0 as u64,
    );
    writing::put_halves(
        out,
        at + REJECTED_CENTS_PLACE,
        tally.rejected.cents.0,
        tally.rejected.cents.1,
    );
}

// ---- reading, of any bytes

// The line of bulk i.
pub fn bulk_line_at(report: &[u8], i: usize) -> &[u8]
    requires { i < 2 ^ 32 }
    ensures { result.now ≡ bulk_line_at report.now i }
{
    wire::text_at(report, COUNT_WIDTH + BULK_LINE_WIDTH * i, BULK_LINE_WIDTH)
}

// Line j of a section.
#[tactic(auto, unfolding(crate::specs::Line::message_line_width))]
pub fn message_line_at(section: &[u8], j: usize) -> &[u8]
    requires { j < 2 ^ 32 }
    ensures { result.now ≡ message_line_at section.now j }
{
    wire::text_at(
        section,
        COUNT_WIDTH + MESSAGE_LINE_WIDTH * j,
        MESSAGE_LINE_WIDTH,
    )
}

pub fn identifier_in(line: &[u8]) -> &[u8]
    ensures { result.now ≡ identifier_in line.now }
{
    wire::text_at(line, 0, IDENTIFIER_WIDTH)
}

pub fn outcome_in(line: &[u8]) -> u8
    ensures { result ≡ outcome_in line.now }
{
    wire::u8_at(line, OUTCOME_PLACE)
}

pub fn faults_in(line: &[u8]) -> u16
    ensures { result ≡ faults_in line.now }
{
    wire::u16_at(line, FAULTS_PLACE)
}

pub fn accepted_number_in(line: &[u8]) -> u32
    ensures { result ≡ (totals_in line.now).accepted_number }
{
    wire::u32_at(line, ACCEPTED_NUMBER_PLACE)
}

pub fn accepted_cents_in(line: &[u8]) -> u64
    ensures { result ≡ (totals_in line.now).accepted_cents }
{
    wire::u64_at(line, ACCEPTED_CENTS_PLACE)
}

pub fn rejected_number_in(line: &[u8]) -> u32
    ensures { result ≡ (totals_in line.now).rejected_number }
{
    wire::u32_at(line, REJECTED_NUMBER_PLACE)
}

// The last eight bytes of the field are the low half: of a longer one `number` keeps no more than these.
pub fn rejected_cents_in(line: &[u8]) -> Cents
    ensures { cents_of result ≡ (totals_in line.now).rejected_cents }
{
    let field = wire::text_at(line, REJECTED_CENTS_PLACE, REJECTED_CENTS_WIDTH);
    let high = field.len().saturating_sub(8);
    Cents(wire::number(&field[..high]), wire::number(field))
}
