// The index of the register: built, changed, and lent to the judge.
use crate::{Desk, files, say, words};
use refusing::Refusal;
use rules::Terms;
use std::io;

pub(crate) const MOST_INDEX: usize = 64;

const SLOT: usize = 4;

// Room for the reports of the cases.
const MOST_REPORT: usize = 256;

// The index is full of this byte before it is built.
const MARK: u8 = 165;

pub(crate) fn empty() -> [u8; MOST_INDEX] {
    [MARK; MOST_INDEX]
}

// How many bytes of the index are as they were.
fn kept(before: &[u8], index: &[u8]) -> u64 {
    index
        .iter()
        .zip(before)
        .filter(|(b, was)| **b == **was)
        .count() as u64
}

// Builds the index of a register in marked bytes.
// A struct of both was tried, and the proof didn't close: the borrow checker covers no `&` of one field while another is lent.
fn built(register: &[u8], index: &mut [u8]) -> Result<(), Refusal> {
    writing::put_text(index, 0, &empty());
    judging::build_index(register, index)
}

// The index that was built, or why none was and how many bytes are as they were.
fn tell_built(rt: &impl Print, register: &[u8], index: &mut [u8]) -> io::Result<()> {
    match built(register, index) {
        Ok(()) => {
            say::slots(rt, index)?;
            say::text(rt, b"\n")
        }
        Err(refusal) => {
            say::refused(rt, refusing::number_of(refusal))?;
            say::kept(rt, kept(&empty(), index))
        }
    }
}

fn copy(index: &[u8]) -> [u8; MOST_INDEX] {
    let mut copied = empty();
    writing::put_text(&mut copied, 0, index);
    copied
}

// The index that a judgement left, and how many of its bytes are those of the one built anew.
fn tell_left(rt: &impl Print, register: &[u8], index: &mut [u8]) -> io::Result<()> {
    say::text(rt, b"; ")?;
    say::slots(rt, index)?;
    let left = copy(index);
    let _ = built(register, index);
    say::as_built(rt, kept(&left, index))
}

// Judges the sheet by the index, and tells what comes of it.
fn judge(rt: &impl Print, sheet: &[u8], register: &mut [u8], index: &mut [u8]) -> io::Result<()> {
    let date = files::TODAY;
    let table = files::table();
    let mut positions = [0u8; 24];
    let mut report = [0u8; MOST_REPORT];
    let before = copy(index);
    let told = judging::judge_indexed(
        Terms { date },
        sheet,
        &table,
        register,
        &mut positions,
        &mut report,
        index,
    );
    match told {
        Err(refusal) => {
            say::refused(rt, refusing::number_of(refusal))?;
            say::read(rt, 0)?;
            say::kept(rt, kept(&before, index))
        }
        Ok(judged) => {
            say::outcome(rt, register, wire::text_at(&report, 0, judged.length))?;
            say::read(rt, judged.slots)?;
            tell_left(rt, register, index)
        }
    }
}

impl Desk {
    // Builds the index of so many bytes of the register in so many of the index, where the index has them.
    fn build(&mut self, rt: &impl Print, register_room: usize, room: usize) -> io::Result<()> {
        let index = &mut self.index[..];
        if room <= index.len() {
            tell_built(
                rt,
                wire::text_at(&self.register, 0, register_room),
                &mut index[..room],
            )?;
        }
        Ok(())
    }

    // Judges by so many bytes of the register and of the index, where they have them.
    fn judge_within(
        &mut self,
        rt: &impl Print,
        register_room: usize,
        room: usize,
    ) -> io::Result<()> {
        let register = &mut self.register[..];
        let index = &mut self.index[..];
        if register_room <= register.len() && room <= index.len() {
            judge(
                rt,
                files::whole(&self.sheet),
                &mut register[..register_room],
                &mut index[..room],
            )?;
        }
        Ok(())
    }

    // A line that builds or changes the index, or has a file judged by it.
    pub(crate) fn step_indexed(&mut self, rt: &impl Print, line: &[u8]) -> io::Result<()> {
        let first = words::count(line, 1) as usize;
        match wire::u8_at(line, 0) {
            b'i' => {
                say::title(rt, words::rest(line, 3))?;
                self.build(rt, first, words::count(line, 2) as usize)?;
            }
            b's' => {
                say::title(rt, words::rest(line, 3))?;
                self.judge_within(rt, first, words::count(line, 2) as usize)?;
            }
            b'g' => writing::put_number(
                &mut self.index,
                SLOT * first,
                SLOT,
                words::number(line, 2),
            ),
            _ => {}
        }
        Ok(())
    }
}
