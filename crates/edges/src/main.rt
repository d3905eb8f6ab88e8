// Runs the values at the edges of the rules through the proved judge, without an index and by one, the calendar of open days and the proved
// reader, and prints a line for each. The cases are the lines of `stdin`, which say what they do at their start; `stdout` was worked out by
// hand from the rules, and what it says of open days with Python's dates. Proved is that this one is safe and ends; what it prints is compared.
#![tactic(auto)]

ghost use Rattle.std.specs.Prelude.{◌≤◌, length, IfOk};

mod days;
mod documents;
mod files;
mod indexed;
mod say;
mod words;

use crate::documents::Text;
use rules::Terms;
use std::io;
use std::io::{Error, ErrorKind, Read};

const MOST_SCRIPT: usize = 20480;

fn lookup(rt: &impl Print, date: u32, bic: &[u8]) -> io::Result<()> {
    let table = files::table();
    let answer = routing::lookup(date, &table, bic);
    match answer {
        Err(refusal) => say::refusal(rt, routing::number_of(refusal)),
        Ok(None) => say::text(rt, b"no row\n"),
        Ok(Some(row)) => say::row(rt, row.place, row.reachable),
    }
}

// What the lines of the judge change and have judged.
#[derive(Drop)]
struct Desk {
    model: [u8; files::MODEL],
    sheet: [u8; files::LARGE],
    register: [u8; files::LARGE],
    index: [u8; indexed::MOST_INDEX],
}

impl Desk {
    // A line that changes the sheet.
    fn change(&mut self, line: &[u8]) {
        let field = files::named(words::letter(line, 1));
        match wire::u8_at(line, 0) {
            b'f' => writing::put_text(&mut self.sheet, 0, &self.model),
            b'p' => writing::put_number(
                &mut self.sheet,
                field.place,
                field.width,
                words::number(line, 2),
            ),
            b'w' => files::put_padded(
                &mut self.sheet,
                field.place,
                field.width,
                words::rest(line, 2),
            ),
            b'c' => files::put_copies(
                &mut self.sheet,
                words::count(line, 4) as usize,
                wire::text_at(
                    &self.model,
                    words::count(line, 2) as usize,
                    words::count(line, 3) as usize,
                ),
                words::count(line, 5) as usize,
                words::count(line, 1),
            ),
            _ => {}
        }
    }

    // What comes of the sheet on a date.
    fn judge(&mut self, rt: &impl Print, date: u32) -> io::Result<()> {
        let table = files::table();
        let mut positions = [0u8; 24];
        let mut report = files::large();
        let answer = judging::judge(
            Terms { date },
            files::whole(&self.sheet),
            &table,
            &mut self.register,
            &mut positions,
            &mut report,
        );
        match answer {
            Err(refusal) => say::refusal(rt, refusing::number_of(refusal)),
            Ok(length) => say::report(rt, &self.register, wire::text_at(&report, 0, length)),
        }
    }

    // Any other line.
    fn step(&mut self, rt: &impl Print, line: &[u8]) -> io::Result<()> {
        match wire::u8_at(line, 0) {
            b'k' => writing::put_text(
                &mut self.model,
                0,
                wire::text_at(&self.sheet, 0, files::MODEL),
            ),
            b'e' => writing::put_number(&mut self.register, 0, 4, 0),
            b'u' => files::put_entry(
                &mut self.register,
                words::word(line, 2),
                words::rest(line, 3),
                words::number(line, 1),
            ),
            b'j' => {
                say::title(rt, words::rest(line, 1))?;
                self.judge(rt, files::TODAY)?;
            }
            b'd' => {
                let date = words::count(line, 1);
                say::date(rt, line, calendar::is_date(date))?;
                self.judge(rt, date)?;
            }
            b'l' => {
                say::title(rt, words::rest(line, 3))?;
                lookup(rt, words::count(line, 1), words::word(line, 2))?;
            }
            _ => {}
        }
        Ok(())
    }
}

// The lines of the judge.
fn judge_all(rt: &impl Print, script: &[u8], desk: &mut Desk) -> io::Result<()> {
    for line in script.split(|b| *b == b'\n') {
        desk.change(line);
        desk.step(rt, line)?;
        desk.step_indexed(rt, line)?;
        days::step(rt, line)?;
    }
    Ok(())
}

// A line that has the text read.
fn read(rt: &impl Print, line: &[u8], text: &[u8]) -> io::Result<()> {
    if wire::u8_at(line, 0) == b'r' {
        say::title(rt, words::rest(line, 2))?;
        documents::read(rt, text, words::count(line, 1) as usize)?;
    }
    Ok(())
}

// The lines of the reader.
fn read_all(rt: &impl Print, script: &[u8], text: &mut Text) -> io::Result<()> {
    for line in script.split(|b| *b == b'\n') {
        text.change(line);
        read(rt, line, text.written())?;
    }
    Ok(())
}

// The same as in judge, which is a program and has nothing to lend.
// Reads until the buffer is full or the input ends, and answers how many bytes it put at the buffer's start. What is longer than the
// buffer is left unread. A read that a signal interrupts is made again. After 2^64 - 1 reads it gives up with an error, as std does.
fn read_full<R: Read>(from: &mut R, buffer: &mut [u8]) -> io::Result<usize>
    ensures { IfOk result (λ n. n ≤ length buffer.new) }
{
    let mut done = 0;
    for _ in 0..u64::MAX {
        if done >= buffer.len() {
            return Ok(buffer.len());
        }
        match from.read(&mut buffer[done..]) {
            Ok(0) => return Ok(done),
            Ok(n) => done += n,
            Err(e) => {
                if e.kind() != ErrorKind::Interrupted {
                    return Err(e);
                }
            }
        }
    }
    Err(Error::from(ErrorKind::TimedOut))
}

fn main(rt: HostRuntime) -> io::Result<()> {
    let mut script = [0u8; MOST_SCRIPT];
    let mut desk = Desk {
        model: files::model(),
        sheet: files::large(),
        register: files::large(),
        index: indexed::empty(),
    };
    let mut text = documents::empty();
    let n = read_full(&mut rt.stdin(), &mut script)?;
    let lines = wire::text_at(&script, 0, n);
    judge_all(&rt, lines, &mut desk)?;
    read_all(&rt, lines, &mut text)
}
