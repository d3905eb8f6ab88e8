// The lines of bulks and messages, printed into a lent buffer. A line of the report is taken as it comes: what is missing at its end
// is printed as nothing or as 0.
#![tactic(auto)]

ghost use Rattle.std.specs.Prelude.{◌≡◌, map, ◌<◌};
ghost use Rattle.tally.specs.Tally.{cents_of};
ghost use Rattle.report.specs.Line.{totals_in};
ghost use Rattle.decimals.specs.Printed.{Printed};
ghost use Rattle.lines.specs.Lines.{shown, identifier_text, head_text, totals_text, bulk_text, message_text};

use tally::Cents;

// How one byte of an identifier is shown: no blank and no odd byte stands in a line.
fn shown(c: u8) -> u8
    ensures { result ≡ shown c }
{
    if c == b' ' {
        b'_'
    } else if wording::allowed(c) {
        c
    } else {
        b'*'
    }
}

fn put_shown(out: &mut [u8], at: usize, s: &[u8]) -> usize
    ensures { Printed out.old out.new at result (map shown s.now) }
{
    let mut next = wire::least(at, out.len());
    for c in s {
        next = decimals::put_byte(out, next, shown(*c));
    }
    next
}

// An identifier without its trailing spaces; one of spaces only is one _.
fn put_identifier(out: &mut [u8], at: usize, identifier: &[u8]) -> usize
    ensures { Printed out.old out.new at result (identifier_text identifier.now) }
{
    let kept = wording::kept(identifier);
    if kept == 0 {
        return decimals::put_byte(out, at, b'_');
    }
    put_shown(out, at, wire::text_at(identifier, 0, kept))
}

// What follows the letter of a bulk's and a message's line: identifier, the outcome's letter and the faults.
fn put_head(out: &mut [u8], at: usize, letters: &[u8], line: &[u8]) -> usize
    ensures { Printed out.old out.new at result (head_text letters.now line.now) }
{
    let outcome = report::outcome_in(line) as u64;
    let faults = report::faults_in(line) as u64;
    let begun = decimals::put_byte(out, at, b' ');
    let named = put_identifier(out, begun, report::identifier_in(line));
    let apart = decimals::put_byte(out, named, b' ');
    let judged = decimals::put(out, apart, wire::text_at(letters, outcome as usize, 1));
    decimals::put_field(out, judged, faults)
}

// Ten bytes, so that two bytes are left for the high half.
fn rejected_cents_in(line: &[u8]) -> Cents
    ensures { (cents_of result ≡ (totals_in line.now).rejected_cents) × (result.0 < 65536) }
{
    report::rejected_cents_in(line)
}

// What a bulk comes to: accepted number and cents, rejected number and cents.
fn put_totals(out: &mut [u8], at: usize, line: &[u8]) -> usize
    ensures { Printed out.old out.new at result (totals_text line.now) }
{
    let accepted = report::accepted_number_in(line) as u64;
    let rejected = report::rejected_number_in(line) as u64;
    let first = decimals::put_field(out, at, accepted);
    let second = decimals::put_field(out, first, report::accepted_cents_in(line));
    let third = decimals::put_field(out, second, rejected);
    let cents = rejected_cents_in(line);
    decimals::put_wide_field(out, third, cents.0, cents.1)
}

// The line of a bulk.
pub fn put_bulk(out: &mut [u8], at: usize, line: &[u8]) -> usize
    ensures { Printed out.old out.new at result (bulk_text line.now) }
{
    let begun = decimals::put_byte(out, at, b'B');
    let headed = put_head(out, begun, b"APR", line);
    let counted = put_totals(out, headed, line);
    decimals::put_byte(out, counted, b'\n')
}

// The line of a message.
pub fn put_message(out: &mut [u8], at: usize, line: &[u8]) -> usize
    ensures { Printed out.old out.new at result (message_text line.now) }
{
    let begun = decimals::put_byte(out, at, b'M');
    let headed = put_head(out, begun, b"ARF", line);
    decimals::put_byte(out, headed, b'\n')
}
