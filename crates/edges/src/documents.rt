// The text of documents that lines write, and what it is read as.
use crate::{say, words};
use std::io;

const MOST_TEXT: usize = 4096;

// The space that is lent is at most so long, and full of this byte, which no sheet of the cases has.
const MOST_SPACE: usize = 256;

const MARK: u8 = 165;

// The text, with where it ends and where it ended at the line `mark`: an array, since there is no heap.
#[derive(Drop)]
pub(crate) struct Text {
    bytes: [u8; MOST_TEXT],
    end: usize,
    mark: usize,
}

pub(crate) fn empty() -> Text {
    Text {
        bytes: [0u8; MOST_TEXT],
        end: 0,
        mark: 0,
    }
}

impl Text {
    fn put(&mut self, words: &[u8]) {
        self.end = decimals::put(&mut self.bytes, self.end, words);
    }

    // So many times the same words.
    fn put_again(&mut self, words: &[u8], n: u32) {
        for _ in 0..n {
            self.put(words);
        }
    }

    // A line that changes the text.
    pub(crate) fn change(&mut self, line: &[u8]) {
        match wire::u8_at(line, 0) {
            b'n' => {
                self.end = 0;
                self.mark = 0;
            }
            b't' => self.put(words::rest(line, 1)),
            b'a' => self.put_again(words::rest(line, 2), words::count(line, 1)),
            b'm' => self.mark = self.end,
            b'b' => self.end = self.mark,
            _ => {}
        }
    }

    // What is written so far.
    pub(crate) fn written(&self) -> &[u8] {
        wire::text_at(&self.bytes, 0, self.end)
    }
}

// How many bytes of the space are as they were lent.
fn kept(space: &[u8]) -> u64 {
    space.iter().filter(|b| **b == MARK).count() as u64
}

// Reads the text into the space, and tells what comes of it.
fn told(rt: &impl Print, text: &[u8], space: &mut [u8]) -> io::Result<()> {
    let answer = reading::read(text, space);
    match answer {
        Ok(n) => say::sheet(rt, n, space)?,
        Err(_) => say::stop(rt, reading::number_of(answer), reading::place_in(answer))?,
    }
    say::kept(rt, kept(space))
}

// The same with so many bytes of the space, where it has them.
fn told_within(rt: &impl Print, text: &[u8], space: &mut [u8], room: usize) -> io::Result<()> {
    if room <= space.len() {
        told(rt, text, &mut space[..room])?;
    }
    Ok(())
}

// Reads the text into a space of so many bytes.
pub(crate) fn read(rt: &impl Print, text: &[u8], room: usize) -> io::Result<()> {
    let mut space = [MARK; MOST_SPACE];
    told_within(rt, text, &mut space, room)
}
