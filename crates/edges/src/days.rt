// What is asked of the calendar of open days. A question is told by its own line.
use crate::{say, words};
use opendays::Unanswered;
use std::io;

// Whether a day is open.
fn tell_open(rt: &impl Print, answer: Result<u32, Unanswered>) -> io::Result<()> {
    match answer {
        Ok(value) => say::open(rt, value == 1),
        Err(_) => say::refusal(rt, opendays::number_of(answer)),
    }
}

// A day, or how many.
fn tell_value(rt: &impl Print, answer: Result<u32, Unanswered>) -> io::Result<()> {
    match answer {
        Ok(value) => say::value(rt, value),
        Err(_) => say::refusal(rt, opendays::number_of(answer)),
    }
}

// A line that asks.
pub(crate) fn step(rt: &impl Print, line: &[u8]) -> io::Result<()> {
    let date = words::count(line, 1);
    match wire::u8_at(line, 0) {
        b'o' => {
            say::title(rt, line)?;
            tell_open(rt, opendays::open_day(date))?;
        }
        b'h' => {
            say::title(rt, line)?;
            tell_value(rt, opendays::next_open_day(date))?;
        }
        b'q' => {
            say::title(rt, line)?;
            tell_value(rt, opendays::open_days(date, words::count(line, 2)))?;
        }
        _ => {}
    }
    Ok(())
}
