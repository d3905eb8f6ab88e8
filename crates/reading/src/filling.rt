// The second reading: it walks each document once, writes its messages as they come, and then its header from what was noted on the way.
// What is asked of it was seen by the first reading.
ghost use Rattle.std.specs.Prelude.{◌≡◌, length, get_or};
ghost use Rattle.std.proofs.lemmas.List.Edits.{sets};
ghost use Rattle.tags.specs.Tags.{end_at};
ghost use Rattle.records.specs.Records.{message_of};
ghost use Rattle.elements.specs.Grammar.{element_at, content_at};
ghost use Rattle.elements.specs.Notes.{step_of, notes_of};
ghost use Rattle.reading.specs.Text.{document_at, roots_at};
ghost use Rattle.reading.specs.Filling.{note_count, forgotten, Ready, Filled, HeaderNoted, Placed, PutWhole, Fitting, PutSheet, place_of, reached_place, busy};

use crate::{HEADER_WIDTH, MESSAGE_WIDTH};
use elements::Stop;
use tags::Tag;

// After something that was read, and after the messages of it that were written.
#[derive(Clone, Copy)]
pub struct Put {
    pub next: usize,
    pub at: usize,
}

// No `From`: neither type is this crate's.
fn place_of(step: Result<usize, Stop>) -> usize
    ensures { result ≡ place_of step }
{
    match step {
        Ok(n) => n,
        Err(Stop::Form(p)) => p,
        Err(Stop::Deep(p)) => p,
    }
}

// Reads an element that holds no other message, notes it, and tells the place after it.
fn after(s: &[u8], j: usize, depth: usize, role: usize, notes: &mut [usize]) -> usize
    ensures next { result ≡ place_of (step_of (element_at depth s.now role j)) }
    ensures notes { notes.new ≡ notes_of (element_at depth s.now role j) notes.old }
{
    place_of(elements::read_element(s, j, depth, role, notes))
}

// Forgets the fields of a message, so that what is noted of the next one is its own whatever it lacks.
fn forget(notes: &mut [usize])
    requires { length notes.old ≡ note_count }
    ensures { notes.new ≡ forgotten notes.old }
{
    notes[paths::IDENTIFIER] = 0;
    notes[paths::RECEIVER] = 0;
    notes[paths::AMOUNT] = 0;
    notes[paths::ORIGINAL_AMOUNT] = 0;
    notes[paths::REASON] = 0;
    notes[paths::ORIGINAL_NAME] = 0;
}

// Writes a message, and tells the place after it in the text.
fn put_one(
    d: &mut [u8],
    at: usize,
    s: &[u8],
    j: usize,
    depth: usize,
    role: usize,
    notes: &mut [usize],
) -> usize
    requires { length notes.old ≡ note_count }
    ensures next { result ≡ place_of (step_of (element_at depth s.now role j)) }
    ensures notes { notes.new ≡ notes_of (element_at depth s.now role j) (forgotten notes.old) }
    ensures written { d.new ≡ sets d.old at (message_of s.now (λ k. get_or notes.new k 0)) }
{
    forget(notes);
    let next = after(s, j, depth, role, notes);
    records::put_message(d, at, s, notes);
    next
}

// The place after an end tag. No `From`: neither type is this crate's.
fn closed(s: &[u8], j: usize, e: usize) -> usize
    ensures { result ≡ reached_place (end_at s.now j e) }
{
    match tags::end(s, j, e) {
        Ok(n) => n,
        Err(p) => p,
    }
}

// Whether there may be messages below a role.
fn holds(role: usize) -> bool
    ensures { result ≡ busy role }
{
    (role == paths::DOCUMENT) | (role == paths::PAYMENTS) | (role == paths::RETURNS)
}

// Writes the messages of an element, however deep they stand, and notes what the header needs. What is read, written and noted stays apart:
// `Filled` and `HeaderNoted` tell what is left in each. Place, depth and role stay parameters, as `element_at` takes them.
#[cycle(gather_put_child)]
fn put_child(
    d: &mut [u8],
    at: usize,
    s: &[u8],
    j: usize,
    depth: usize,
    role: usize,
    notes: &mut [usize],
) -> Put
    requires { Ready (element_at depth s.now role j) at d.old notes.old }
    ensures written { Filled s.now (element_at depth s.now role j) at d.old d.new result }
    ensures notes { HeaderNoted (element_at depth s.now role j) notes.old notes.new }
{
    if paths::is_message(role) {
        let next = put_one(d, at, s, j, depth, role, notes);
        return Put {
            next,
            at: at + MESSAGE_WIDTH,
        };
    }
    if !holds(role) {
        return Put {
            next: after(s, j, depth, role, notes),
            at,
        };
    }
    match tags::start(s, j) {
        Ok(Tag::Open(_, inside)) => {
            let put = gather(d, at, s, inside, depth - 1, role, notes);
            notes[role] = j;
            Put {
                next: closed(s, j, put.next),
                at: put.at,
            }
        }
        Ok(Tag::Empty(_, next)) => {
            notes[role] = j;
            Put { next, at }
        }
        Err(p) => Put { next: p, at },
    }
}

// Writes the messages of a content, likewise.
#[cycle(gather_put_child)]
fn gather(
    d: &mut [u8],
    at: usize,
    s: &[u8],
    inside: usize,
    depth: usize,
    role: usize,
    notes: &mut [usize],
) -> Put
    requires { Ready (content_at depth s.now role inside) at d.old notes.old }
    ensures written { Filled s.now (content_at depth s.now role inside) at d.old d.new result }
    ensures notes { HeaderNoted (content_at depth s.now role inside) notes.old notes.new }
{
    let mut i = inside;
    let mut m = at;
    loop {
        match prose::text_end(s, i) {
            Err(p) => {
                return Put { next: p, at: m };
            }
            Ok(j) => {
                if letters::byte_at(s, j + 1) == b'/' {
                    return Put { next: j, at: m };
                }
                let child = paths::child_role(role, tags::name_at(s, j + 1));
                let put = put_child(d, m, s, j, depth, child, notes);
                i = put.next;
                m = put.at;
            }
        }
    }
}

// Writes the header and the section of a document.
fn put_document(d: &mut [u8], h: usize, m: usize, s: &[u8], i: usize) -> Put
    requires { Placed s.now (document_at s.now i) i h m d.old }
    ensures { PutWhole s.now (document_at s.now i) h m d.old d.new result }
{
    let role = paths::root_role(tags::name_at(s, i + 1));
    let mut notes = [0usize; elements::NOTES];
    let put = put_child(
        d,
        m + wire::COUNT_WIDTH,
        s,
        i,
        elements::LEVELS,
        role,
        &mut notes,
    );
    records::put_header(d, h, s, &notes);
    let messages = (put.at - (m + wire::COUNT_WIDTH)) / MESSAGE_WIDTH;
    writing::put_number(d, m, wire::COUNT_WIDTH, messages as u64);
    put
}

// Writes the sheet, and tells how long it is.
pub(crate) fn second_reading(d: &mut [u8], s: &[u8], first: usize, bulks: usize) -> usize
    requires { Fitting s.now (roots_at s.now first) bulks d.old }
    ensures { PutSheet s.now (roots_at s.now first) d.old d.new result }
{
    writing::put_number(d, 0, wire::COUNT_WIDTH, bulks as u64);
    let mut i = first;
    let mut h = wire::COUNT_WIDTH;
    let mut m = wire::COUNT_WIDTH + HEADER_WIDTH * bulks;
    while i < s.len() {
        let put = put_document(d, h, m, s, i);
        h += HEADER_WIDTH;
        m = put.at;
        i = tags::space_end(s, put.next);
    }
    m
}
