// Names, attributes, start tags and end tags, at any place of any text.
#![tactic(auto)]

mod currency;
mod ends;
mod turns;
mod twice;

ghost use Rattle.std.specs.Prelude.{◌≡◌, ◌+◌};
ghost use Rattle.letters.specs.Characters.{width_at};
ghost use Rattle.letters.specs.References.{reference_at};
ghost use Rattle.tags.specs.Names.{is_space, name_start, name_byte, space_end, name_end, name_at};
ghost use Rattle.tags.specs.Attributes.{after_reference, after_character, is_quote, attribute_at, attributes_at, euros};
ghost use Rattle.tags.specs.Tags.{start_at, end_at};

use letters::{Bytes, Reach, Turn};

// A start tag: where its attributes end, and the place after it.
#[derive(Clone, Copy)]
pub enum Tag {
    Open(usize, usize),
    Empty(usize, usize),
}

// ---- names and spaces

#[tactic(auto, unfolding(crate::specs::Names::is_space))]
pub fn is_space(b: u8) -> bool
    ensures { result ≡ is_space b }
{
    (b == b' ') | (b == b'\t') | (b == b'\n') | (b == b'\r')
}

#[derive(Clone, Copy)]
struct Space;

impl Bytes for Space {
    ghost holds = { λ self. is_space };

    fn has(&self, b: u8) -> bool {
        is_space(b)
    }
}

// Whether a name may begin with the byte.
#[tactic(auto, unfolding(crate::specs::Names::name_start))]
pub fn name_starts(b: u8) -> bool
    ensures { result ≡ name_start b }
{
    ((b'A' <= b) & (b <= b'Z')) | ((b'a' <= b) & (b <= b'z')) | (b == b'_') | (b == b':')
}

// Whether the byte may stand in a name. In this order the compiler asks for letters first, which most bytes of a name are.
fn in_name(b: u8) -> bool
    ensures { result ≡ name_byte b }
{
    (b == b'-')
        | (b == b'.')
        | ((b'0' <= b) & (b <= b'9'))
        | (b == b':')
        | (b == b'_')
        | ((b'a' <= b) & (b <= b'z'))
        | ((b'A' <= b) & (b <= b'Z'))
}

#[derive(Clone, Copy)]
struct InName;

impl Bytes for InName {
    ghost holds = { λ self. name_byte };

    fn has(&self, b: u8) -> bool {
        in_name(b)
    }
}

// The place after the spaces that stand here.
pub fn space_end(s: &[u8], at: usize) -> usize
    ensures { result ≡ space_end s.now at }
{
    letters::run_end(s, at, Space)
}

// The place after the name that stands here.
pub fn name_end(s: &[u8], at: usize) -> usize
    ensures { result ≡ name_end s.now at }
{
    letters::run_end(s, at, InName)
}

pub fn name_at(s: &[u8], at: usize) -> &[u8]
    ensures { result.now ≡ name_at s.now at }
{
    wire::text_at(s, at, name_end(s, at) - at)
}

// ---- attributes

// On after the reference that stands here.
pub fn after_reference(s: &[u8], at: usize) -> Turn
    ensures { result ≡ after_reference (reference_at s.now at) at }
{
    match letters::reference_at(s, at) {
        Some(r) => Turn::On(r.next),
        None => Turn::Breaks(at),
    }
}

// On after the character that stands here.
pub fn after_character(s: &[u8], at: usize) -> Turn
    ensures { result ≡ after_character (width_at s.now at) at }
{
    let width = letters::width_at(s, at);
    if width == 0 {
        Turn::Breaks(at)
    } else {
        Turn::On(at + width)
    }
}

pub fn is_quote(b: u8) -> bool
    ensures { result ≡ is_quote b }
{
    (b == b'"') | (b == b'\'')
}

// A name, '=' and a value in quotes.
#[tactic(auto, unfolding(crate::specs::Attributes::attribute_at))]
pub fn attribute(s: &[u8], at: usize) -> Reach
    ensures { result ≡ attribute_at s.now at }
{
    let equals = space_end(s, name_end(s, at));
    if letters::byte_at(s, equals) != b'=' {
        return Err(equals);
    }
    let from = space_end(s, equals + 1);
    let quote = letters::byte_at(s, from);
    if is_quote(quote) {
        turns::value(s, quote, from + 1)
    } else {
        Err(from)
    }
}

// How many attributes are held against those before them by walking these again. Most tags have no more.
const FEW: usize = 4;

// The attributes of a tag: the place at which what ends the tag has to stand.
pub fn attributes(s: &[u8], from: usize) -> Reach
    ensures { result ≡ attributes_at s.now from }
{
    let mut i = from;
    for _ in 0..FEW {
        match turns::attribute_turn(s, from, i) {
            Turn::On(next) => {
                i = next;
            }
            Turn::Ends(e) => {
                return Ok(e);
            }
            Turn::Breaks(p) => {
                return Err(p);
            }
        }
    }
    twice::many(s, from)
}

// Whether one of the attributes between two places says that the amount is in euros.
pub fn in_euros(s: &[u8], from: usize, end: usize) -> bool
    ensures { result ≡ euros s.now from end }
{
    turns::some_attribute(s, from, end, |k| currency::is_euros(s, k))
}

// ---- tags

// A start tag whose name ends at place to, in general; or where its form is broken.
#[tactic(auto, unfolding(crate::specs::Tags::start_at))]
fn attributed(s: &[u8], at: usize, to: usize) -> Result<Tag, usize>
    requires { to ≡ name_end s.now (at + 1) }
    ensures { result ≡ start_at s.now at }
{
    if s.len() <= at {
        return Err(at);
    }
    if !name_starts(letters::byte_at(s, at + 1)) {
        return Err(at + 1);
    }
    ends::closed(s, attributes(s, to)?)
}

// A start tag whose name ends at place to. Most have no attributes, and are done there; what others need stands apart, so that
// this is small enough for the compiler to put it where it is called.
pub fn start_from(s: &[u8], at: usize, to: usize) -> Result<Tag, usize>
    requires { to ≡ name_end s.now (at + 1) }
    ensures { result ≡ start_at s.now at }
{
    if letters::byte_at(s, to) == b'>' {
        if name_starts(s[at + 1]) {
            return Ok(Tag::Open(to, to + 1));
        }
    }
    attributed(s, at, to)
}

// A start tag, of which nothing is known yet.
#[tactic(auto, unfolding(crate::specs::Tags::start_at))]
pub fn start(s: &[u8], at: usize) -> Result<Tag, usize>
    ensures { result ≡ start_at s.now at }
{
    if s.len() <= at {
        return Err(at);
    }
    attributed(s, at, name_end(s, at + 1))
}

// The end tag of the element whose start tag began at a place, and whose name ends at place to.
pub fn end_from(s: &[u8], start: usize, to: usize, at: usize) -> Reach
    requires { to ≡ name_end s.now (start + 1) }
    ensures { result ≡ end_at s.now start at }
{
    if letters::byte_at(s, at) != b'<' {
        return Err(at);
    }
    if letters::byte_at(s, at + 1) != b'/' {
        return Err(at + 1);
    }
    ends::end_closed(s, ends::name_again(s, start + 1, to, at + 2)?)
}

// The end tag of the element whose start tag began at a place. Past the end of the text no name stands, from whichever place on.
pub fn end(s: &[u8], start: usize, at: usize) -> Reach
    ensures { result ≡ end_at s.now start at }
{
    let begin = wire::least(start, s.len());
    end_from(s, begin, name_end(s, begin + 1), at)
}
