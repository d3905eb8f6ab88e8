// Texts of documents read into a sheet: a first reading tells whether it can be made, a second one writes it.
#![tactic(auto)]

mod filling;
mod survey;

ghost use Rattle.std.specs.Prelude.{◌≡◌};
ghost use Rattle.reading.specs.Text.{some_roots};
ghost use Rattle.reading.specs.Survey.{unread_of};
ghost use Rattle.reading.specs.Reading.{outcome, outcome_of, reads, number_of, length_of, where_of};

use elements::Stop;

// Why no sheet is made of a text, and at which place: its form is broken, an element is too deep or lacks something; or the space is too short.
#[derive(Debug, Clone, Copy, PartialEq, Eq)]
pub enum Unread {
    Form(usize),
    Deep(usize),
    Lack(usize),
    Short,
}

impl From<Stop> for Unread {
    ghost from_gives = { λ stop unread. unread ≡ unread_of stop };

    fn from(stop: Stop) -> Unread {
        match stop {
            Stop::Form(p) => Unread::Form(p),
            Stop::Deep(p) => Unread::Deep(p),
        }
    }
}

// Of how many bytes of a sheet a header and a message are.
const HEADER_WIDTH: usize = 65;

const MESSAGE_WIDTH: usize = 81;

// Reads the documents from the first on.
fn from(text: &[u8], first: usize, sheet: &mut [u8]) -> Result<usize, Unread>
    ensures { outcome result sheet.new ≡ outcome_of text.now sheet.old (some_roots text.now first) }
{
    if text.len() <= first {
        return Err(Unread::Form(first));
    }
    let bulks = survey::first_reading(text, first, sheet.len())?;
    Ok(filling::second_reading(sheet, text, first, bulks))
}

// Reads a text of documents into the sheet that they mean, and tells how long it is. Nothing is written unless all of it can be.
pub fn read(text: &[u8], sheet: &mut [u8]) -> Result<usize, Unread>
    ensures { outcome result sheet.new ≡ reads text.now sheet.old }
{
    let first = prolog::first_place(text).map_err(Unread::Form)?;
    from(text, first, sheet)
}

// ---- the answer in numbers: by functions, since no `From` may stand between types that are not this crate's

pub fn number_of(r: Result<usize, Unread>) -> u32
    ensures { result ≡ number_of r }
{
    match r {
        Ok(_) => 0,
        Err(Unread::Form(_)) => 21,
        Err(Unread::Deep(_)) => 22,
        Err(Unread::Lack(_)) => 23,
        Err(Unread::Short) => 24,
    }
}

pub fn length_of(r: Result<usize, Unread>) -> usize
    ensures { result ≡ length_of r }
{
    r.unwrap_or(0)
}

pub fn place_in(r: Result<usize, Unread>) -> usize
    ensures { result ≡ where_of r }
{
    match r {
        Err(Unread::Form(p)) => p,
        Err(Unread::Deep(p)) => p,
        Err(Unread::Lack(p)) => p,
        Err(Unread::Short) => 0,
        Ok(_) => 0,
    }
}
