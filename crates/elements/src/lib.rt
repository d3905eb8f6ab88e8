// Elements within elements, each in its role. Proved: any text is read exactly as the grammar says, from any place, with any levels left;
// and what is noted on the way is what the definition notes of the needed elements that were read.
#![tactic(auto)]

mod begun;
mod notes;
mod over;

ghost use Rattle.std.specs.Prelude.{◌≡◌, ◌+◌, ◌≤◌, length, replicate};
ghost use Rattle.tags.specs.Names.{name_end};
ghost use Rattle.tags.specs.Tags.{start_at};
ghost use Rattle.prose.specs.Prose.{text_at};
ghost use Rattle.paths.specs.Roles.{bulk_identifier};
ghost use Rattle.elements.specs.Grammar.{in_euros, filled_field, field_at, element_at, content_at};
ghost use Rattle.elements.specs.Notes.{step_of, formed, Noted, NotedIn, notes_of};

use begun::Begun;
use tags::Tag;

// Why reading stops before the end: the form is broken at a place, or a '<' is too deep.
#[derive(Debug, Clone, Copy, PartialEq, Eq)]
pub enum Stop {
    Form(usize),
    Deep(usize),
}

// How many levels of elements there may be.
pub const LEVELS: usize = 32;

// Notes are a place for each role, then these two: the first element that lacks something, the number of messages.
pub const LACK: usize = paths::ROLES;

pub const MESSAGES: usize = LACK + 1;

pub const NOTES: usize = MESSAGES + 1;

// No sheet counts as many.
pub const TOO_MANY: usize = 4294967296;

// The '<' after a text.
fn text_end(s: &[u8], at: usize) -> Result<usize, Stop>
    ensures { result ≡ formed (text_at s.now at) }
{
    prose::text_end(s, at).map_err(Stop::Form)
}

// ---- fields

// Whether a field's tag, whose attributes end at a place, says euros, if it is an amount's.
fn currency(begun: &Begun, role: usize, end: usize) -> bool
    ensures { result ≡ in_euros role begun.now.text.now (name_end begun.now.text.now (begun.now.at + 1)) end }
{
    if !paths::is_amount(role) {
        return true;
    }
    tags::in_euros(begun.text, begun.to, end)
}

// A field's text and end tag.
fn filled_field(begun: &Begun, role: usize, inside: usize) -> Result<usize, Stop>
    ensures { result ≡ step_of (filled_field role begun.now.text.now begun.now.at inside) }
{
    let end = text_end(begun.text, inside)?;
    if !fields::fits_at(role, begun.text, inside) {
        return Err(Stop::Form(end));
    }
    begun.close(end)
}

// A field's element: its tag, its text and its end tag.
fn field(begun: &Begun, role: usize, notes: &mut [usize]) -> Result<usize, Stop>
    requires { bulk_identifier ≤ role }
    ensures step { result ≡ step_of (field_at role begun.now.text.now begun.now.at (start_at begun.now.text.now begun.now.at)) }
    ensures notes { Noted (field_at role begun.now.text.now begun.now.at (start_at begun.now.text.now begun.now.at)) notes.old notes.new }
{
    let tag = begun.start()?;
    match tag {
        Tag::Open(end, inside) => {
            if !currency(begun, role, end) {
                return Err(Stop::Form(end));
            }
            notes::note(notes, role, inside, false);
            filled_field(begun, role, inside)
        }
        Tag::Empty(end, next) => {
            if !currency(begun, role, end) {
                return Err(Stop::Form(end));
            }
            if !fields::fits_empty(role) {
                return Err(Stop::Form(end));
            }
            notes::note(notes, role, begun.at, false);
            Ok(next)
        }
    }
}

// ---- elements and their contents, which call each other

// An element that plays a role, with so many levels left for it and what it holds.
#[cycle(content_element)]
fn element(begun: &Begun, depth: usize, role: usize, notes: &mut [usize]) -> Result<usize, Stop>
    ensures step { result ≡ step_of (element_at depth begun.now.text.now role begun.now.at) }
    ensures notes { Noted (element_at depth begun.now.text.now role begun.now.at) notes.old notes.new }
{
    if role == paths::OTHER {
        return over::skip(begun, depth);
    }
    if depth == 0 {
        return begun.too_deep();
    }
    if paths::BULK_IDENTIFIER <= role {
        return field(begun, role, notes);
    }
    let tag = begun.start()?;
    match tag {
        Tag::Open(_, inside) => {
            let end = content(begun.text, inside, depth - 1, role, begun.at, notes)?;
            begun.close(end)
        }
        Tag::Empty(_, next) => {
            notes::note_bare(notes, role, begun.at);
            Ok(next)
        }
    }
}

// Text and elements, up to the '<' of an end tag: what an element holds that plays a role and begins at a place.
#[cycle(content_element)]
fn content(
    s: &[u8],
    at: usize,
    depth: usize,
    role: usize,
    place: usize,
    notes: &mut [usize],
) -> Result<usize, Stop>
    ensures step { result ≡ step_of (content_at depth s.now role at) }
    ensures notes { NotedIn role place (content_at depth s.now role at) notes.old notes.new }
{
    let mut counts = [0u8; paths::ROLES];
    let mut i = at;
    loop {
        let j = text_end(s, i)?;
        if letters::byte_at(s, j + 1) == b'/' {
            notes::note_group(notes, role, place, &counts);
            return Ok(j);
        }
        let begun = Begun::new(s, j);
        let child = begun.role_in(role);
        i = element(&begun, depth, child, notes)?;
        notes::count(&mut counts, child);
    }
}

// ---- for crates above

// Forgets all notes.
fn clear(notes: &mut [usize])
    ensures { notes.new ≡ replicate (length notes.old) 0 }
{
    notes.fill(0);
}

// Reads an element as above, at any place: so no `Begun`, which only begins in the text. Where it is not of the form, or too deep, the
// notes are 0.
pub fn read_element(
    s: &[u8],
    at: usize,
    depth: usize,
    role: usize,
    notes: &mut [usize],
) -> Result<usize, Stop>
    ensures step { result ≡ step_of (element_at depth s.now role at) }
    ensures notes { notes.new ≡ notes_of (element_at depth s.now role at) notes.old }
{
    if s.len() <= at {
        clear(notes);
        return Err(Stop::Form(at));
    }
    let read = element(&Begun::new(s, at), depth, role, notes);
    if read.is_err() {
        clear(notes);
    }
    read
}
