// The first reading: it tells whether a sheet can be made of the documents, how many bulks it has, or why there is none. It writes nothing.
ghost use Rattle.std.specs.Prelude.{◌≡◌, cond, not, ◌||◌, ◌<◌, length, ltb, IfOk};
ghost use Rattle.elements.specs.Notes.{step_of};
ghost use Rattle.reading.specs.Text.{document_at, roots_at};
ghost use Rattle.reading.specs.Meaning.{countable};
ghost use Rattle.reading.specs.Survey.{Looked, seen_to, taken_of, survey_of};
ghost use Rattle.reading.specs.declared.Unread.TheVariants.{Lack, Short};

use crate::{HEADER_WIDTH, MESSAGE_WIDTH, Unread};
use elements::Stop;

// What was seen of a document: where it ends, the first place so far at which something lacks, how many messages it has.
#[derive(Clone, Copy)]
pub struct Seen {
    pub next: usize,
    pub lack: usize,
    pub messages: usize,
}

// Reads a document, and nothing more than that.
fn look(s: &[u8], at: usize, lack: usize) -> Result<Seen, Stop>
    requires { at < length s.now }
    ensures step { seen_to result ≡ step_of (document_at s.now at) }
    ensures told { IfOk result (λ seen. Looked (document_at s.now at) lack seen) }
{
    let mut notes = [0usize; elements::NOTES];
    notes[elements::LACK] = lack;
    let role = paths::root_role(tags::name_at(s, at + 1));
    let next = elements::read_element(s, at, elements::LEVELS, role, &mut notes)?;
    Ok(Seen {
        next,
        lack: notes[elements::LACK],
        messages: notes[elements::MESSAGES],
    })
}

// The room that is left after a bulk of so many messages, if they can be counted and there is as much.
fn taken(room: Option<usize>, messages: usize) -> Option<usize>
    ensures { result ≡ taken_of room messages }
{
    let left = room?;
    if elements::TOO_MANY <= messages {
        return None;
    }
    left.checked_sub(HEADER_WIDTH + wire::COUNT_WIDTH + MESSAGE_WIDTH * messages)
}

// The answer that the first reading comes to.
fn conclude(lack: usize, end: usize, short: bool, bulks: usize) -> Result<usize, Unread>
    ensures { result ≡ cond (ltb lack end) (Err (Lack lack)) (cond (short || not (countable bulks)) (Err Short) (Ok bulks)) }
{
    if lack < end {
        return Err(Unread::Lack(lack));
    }
    if short | (elements::TOO_MANY <= bulks) {
        return Err(Unread::Short);
    }
    Ok(bulks)
}

// Reads all documents from the first on, and writes nothing.
pub(crate) fn first_reading(s: &[u8], first: usize, space: usize) -> Result<usize, Unread>
    ensures { result ≡ survey_of s.now space (roots_at s.now first) }
{
    let mut i = first;
    let mut lack = s.len();
    let mut bulks = 0;
    let mut room = space.checked_sub(wire::COUNT_WIDTH);
    while i < s.len() {
        if s[i] != b'<' {
            return Err(Unread::Form(i));
        }
        let seen = look(s, i, lack)?;
        lack = seen.lack;
        room = taken(room, seen.messages);
        bulks += 1;
        i = tags::space_end(s, seen.next);
    }
    conclude(lack, s.len(), room.is_none(), bulks)
}
