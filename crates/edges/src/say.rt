// What is printed of a case: a title, then what came of it.
ghost use Rattle.std.specs.Prelude.{◌<◌};

use crate::words;
use std::io;

// A longer report is told by its length.
const MOST_SHOWN: usize = 1000;

// In a sheet, where the amount of the first message would stand if there were no headers, and what each header takes.
const AMOUNT: usize = 54;

const HEADER: usize = 65;

const SLOT: usize = 4;

pub(crate) fn text(rt: &impl Print, words: &[u8]) -> io::Result<()> {
    rt.write_all(words)
}

fn number(rt: &impl Print, v: u64) -> io::Result<()> {
    rt.print(v)
}

// A number, and the line's end.
fn last(rt: &impl Print, v: u64) -> io::Result<()> {
    number(rt, v)?;
    text(rt, b"\n")
}

pub(crate) fn title(rt: &impl Print, words: &[u8]) -> io::Result<()> {
    text(rt, words)?;
    text(rt, b": ")
}

// A date is told by its own line. What is said by a flag, here and below, is one of two: a closure would be longer.
pub(crate) fn date(rt: &impl Print, line: &[u8], is: bool) -> io::Result<()> {
    text(rt, line)?;
    if is {
        title(rt, b", in the calendar")
    } else {
        title(rt, b", not in the calendar")
    }
}

pub(crate) fn refused(rt: &impl Print, number_of_it: u32) -> io::Result<()> {
    text(rt, b"refusal ")?;
    number(rt, number_of_it as u64)
}

pub(crate) fn refusal(rt: &impl Print, number_of_it: u32) -> io::Result<()> {
    refused(rt, number_of_it)?;
    text(rt, b"\n")
}

pub(crate) fn value(rt: &impl Print, v: u32) -> io::Result<()> {
    last(rt, v as u64)
}

pub(crate) fn open(rt: &impl Print, is: bool) -> io::Result<()> {
    if is {
        text(rt, b"open\n")
    } else {
        text(rt, b"closed\n")
    }
}

fn bit(rt: &impl Print, faults: u16, k: u16) -> io::Result<()>
    requires { k < 16 }
{
    if masks::shows(faults, k) {
        text(rt, b" ")?;
        number(rt, k as u64)?;
    }
    Ok(())
}

// The bits that a mask shows, the lowest first.
fn bits(rt: &impl Print, faults: u16) -> io::Result<()> {
    if faults == 0 {
        return text(rt, b", no bits");
    }
    text(rt, b", bits")?;
    for k in 0..16 {
        bit(rt, faults, k)?;
    }
    Ok(())
}

// The outcome's word, and the faults.
fn line(rt: &impl Print, outcomes: &[u8], line: &[u8]) -> io::Result<()> {
    text(rt, words::word(outcomes, report::outcome_in(line) as usize))?;
    bits(rt, report::faults_in(line))
}

// The message lines of a bulk, which follow their count.
fn messages(rt: &impl Print, section: &[u8]) -> io::Result<()> {
    let count = wire::u32_at(section, 0);
    for i in 0..count {
        text(rt, b"; message ")?;
        line(
            rt,
            b"accepted rejected fell",
            report::message_line_at(section, i as usize),
        )?;
    }
    Ok(())
}

fn bulk(rt: &impl Print, report: &[u8]) -> io::Result<()> {
    text(rt, b"bulk ")?;
    line(
        rt,
        b"accepted partial rejected",
        report::bulk_line_at(report, 0),
    )?;
    messages(
        rt,
        wire::text_at(report, report::sections_at(1), report.len()),
    )
}

fn size(rt: &impl Print, length: usize) -> io::Result<()> {
    text(rt, b"report of ")?;
    number(rt, length as u64)?;
    text(rt, b" bytes")
}

// The report of one bulk, and how many entries of the register are used after it.
pub(crate) fn outcome(rt: &impl Print, register: &[u8], report: &[u8]) -> io::Result<()> {
    if (report.len() <= 4) | (MOST_SHOWN < report.len()) {
        size(rt, report.len())?;
    } else {
        bulk(rt, report)?;
    }
    text(rt, b"; register holds ")?;
    number(rt, register::used(register) as u64)
}

pub(crate) fn report(rt: &impl Print, register: &[u8], report: &[u8]) -> io::Result<()> {
    outcome(rt, register, report)?;
    text(rt, b"\n")
}

// The slots of an index.
pub(crate) fn slots(rt: &impl Print, index: &[u8]) -> io::Result<()> {
    if index.len() == 0 {
        return text(rt, b"no slots");
    }
    text(rt, b"slots")?;
    for slot in index.chunks_exact(SLOT) {
        text(rt, b" ")?;
        number(rt, wire::u32_at(slot, 0) as u64)?;
    }
    Ok(())
}

// How many slots the searches read. It, `as_built` and `kept` each have their own words: no plainer as one.
pub(crate) fn read(rt: &impl Print, slots: u64) -> io::Result<()> {
    text(rt, b"; slots read ")?;
    number(rt, slots)
}

pub(crate) fn as_built(rt: &impl Print, bytes: u64) -> io::Result<()> {
    text(rt, b"; bytes as built ")?;
    last(rt, bytes)
}

// The row that a lookup found.
pub(crate) fn row(rt: &impl Print, place: usize, reachable: bool) -> io::Result<()> {
    text(rt, b"row ")?;
    number(rt, place as u64)?;
    if reachable {
        text(rt, b", reachable\n")
    } else {
        text(rt, b", not reachable\n")
    }
}

// The sheet that was read, by its length and the amount of its first message.
pub(crate) fn sheet(rt: &impl Print, length: usize, sheet: &[u8]) -> io::Result<()> {
    text(rt, b"sheet of ")?;
    number(rt, length as u64)?;
    text(rt, b" bytes, amount ")?;
    let bulks = wire::u32_at(sheet, 0) as usize;
    number(rt, wire::u64_at(sheet, AMOUNT + HEADER * bulks))
}

// Why a text is no sheet, and where that was met.
pub(crate) fn stop(rt: &impl Print, number_of_it: u32, place: usize) -> io::Result<()> {
    refused(rt, number_of_it)?;
    text(rt, b" at ")?;
    number(rt, place as u64)
}

pub(crate) fn kept(rt: &impl Print, bytes: u64) -> io::Result<()> {
    text(rt, b"; bytes kept ")?;
    last(rt, bytes)
}
