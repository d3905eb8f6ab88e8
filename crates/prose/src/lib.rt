// The text of an element: where it ends, and what it says. Every function takes any text and any place.
#![tactic(auto)]

ghost use Rattle.std.specs.Prelude.{◌≡◌};
ghost use Rattle.letters.specs.Places.{run_end};
ghost use Rattle.letters.specs.References.{stands};
ghost use Rattle.prose.specs.Plain.{plain, straight};
ghost use Rattle.prose.specs.Prose.{section_start, section_end, past_plain, section_turn, section_at, text_turn, text_at, other_of, plain_piece, piece_at, said_at, Kept};

use letters::{Bytes, Reach, Reference, Turn};

// A piece of what a text says: so many bytes that stand for themselves, or one character that is written otherwise and the place after
// it; the place after the start or the end of a section; or no piece.
#[derive(Clone, Copy)]
pub enum Piece {
    Itself(usize),
    Other(usize, usize),
    Turns(usize),
    Silent,
}

// What a text says, cut to as many bytes as are kept, or filled up with spaces; and how many it says, 36 for more than are kept.
// Of one size beside its length, since there is no heap.
#[derive(Clone, Copy)]
pub struct Said {
    pub bytes: [u8; 35],
    pub length: usize,
}

// ---- bytes and signs

// Whether a byte is a character of its own and begins nothing else: most bytes of most texts.
fn is_plain(b: u8) -> bool
    ensures { result ≡ plain b }
{
    letters::is_single(b) & !((b == b'<') | (b == b'&') | (b == b']'))
}

#[derive(Clone, Copy)]
struct PlainByte;

impl Bytes for PlainByte {
    ghost holds = { λ self. plain };

    fn has(&self, b: u8) -> bool {
        is_plain(b)
    }
}

// The place after the plain bytes that stand here.
fn plain_end(s: &[u8], at: usize) -> usize
    ensures { result ≡ run_end plain s.now at }
{
    letters::run_end(s, at, PlainByte)
}

// Whether a section starts here. Its first two bytes are asked before it is compared as a whole: most '<' begin a tag.
fn starts_section(s: &[u8], at: usize) -> bool
    ensures { result ≡ stands s.now at section_start }
{
    if letters::byte_at(s, at) != b'<' {
        return false;
    }
    if letters::byte_at(s, at + 1) != b'!' {
        return false;
    }
    letters::stands_at(s, at, b"<![CDATA[")
}

// Whether a section's end stands here. Most bytes are told by the first test.
fn ends_section(s: &[u8], at: usize) -> bool
    ensures { result ≡ stands s.now at section_end }
{
    if letters::byte_at(s, at) != b']' {
        return false;
    }
    letters::stands_at(s, at, b"]]>")
}

// ---- where a text ends

// A turn that goes on goes over the plain bytes after it too.
fn past_plain(s: &[u8], turn: Turn) -> Turn
    ensures { result ≡ past_plain s.now turn }
{
    match turn {
        Turn::On(next) => Turn::On(plain_end(s, next)),
        _ => turn,
    }
}

fn section_turn(s: &[u8], at: usize) -> Turn
    ensures { result ≡ section_turn s.now at }
{
    if ends_section(s, at) {
        return Turn::Ends(at + 3);
    }
    tags::after_character(s, at)
}

// The place after the section whose content begins here, or where its form is broken.
fn section_end(s: &[u8], at: usize) -> Reach
    ensures { result ≡ section_at s.now at }
{
    letters::walk(s, at, |i| past_plain(s, section_turn(s, i)))
}

fn text_turn(s: &[u8], at: usize) -> Turn
    ensures { result ≡ text_turn s.now at }
{
    let b = letters::byte_at(s, at);
    if b == b'<' {
        if !starts_section(s, at) {
            return Turn::Ends(at);
        }
        // two arms here and in tags: a `From` with its clause would be longer
        return match section_end(s, at + 9) {
            Ok(next) => Turn::On(next),
            Err(p) => Turn::Breaks(p),
        };
    }
    if b == b'&' {
        return tags::after_reference(s, at);
    }
    if ends_section(s, at) {
        return Turn::Breaks(at);
    }
    tags::after_character(s, at)
}

// The place after the plain bytes that stand here, where most often none does and a tag begins.
fn short_end(s: &[u8], at: usize) -> usize
    ensures { result ≡ run_end plain s.now at }
{
    if letters::byte_at(s, at) == b'<' {
        at
    } else {
        plain_end(s, at)
    }
}

// The same as `text_end`, turn by turn. That calls it at two places: called at one, it would be compiled into it, and make the short way
// longer.
fn rest_end(s: &[u8], at: usize) -> Reach
    ensures { result ≡ text_at s.now at }
{
    letters::walk(s, at, |i| past_plain(s, text_turn(s, i)))
}

// The '<' that ends the text which begins here, or where its form is broken. Most texts are plain bytes up to a tag, and cost one test
// for each.
pub fn text_end(s: &[u8], at: usize) -> Reach
    ensures { result ≡ text_at s.now at }
{
    let i = short_end(s, at);
    if letters::byte_at(s, i) != b'<' {
        return rest_end(s, i);
    }
    if letters::byte_at(s, i + 1) != b'!' {
        return Ok(i);
    }
    rest_end(s, i)
}

// ---- what a text says

// Whether a byte is plain and says itself, which a carriage return does not.
fn is_straight(b: u8) -> bool
    ensures { result ≡ straight b }
{
    is_plain(b) & (b != 13)
}

#[derive(Clone, Copy)]
struct StraightByte;

impl Bytes for StraightByte {
    ghost holds = { λ self. straight };

    fn has(&self, b: u8) -> bool {
        is_straight(b)
    }
}

// The place after the straight bytes that stand here. Where a tag follows them, they are what the text says.
pub fn straight_end(s: &[u8], at: usize) -> usize
    ensures { result ≡ run_end straight s.now at }
{
    letters::run_end(s, at, StraightByte)
}

// No `From`: it has one caller, and would be longer.
fn other_of(r: Option<Reference>) -> Piece
    ensures { result ≡ other_of r }
{
    match r {
        Some(r) => Piece::Other(r.character, r.next),
        None => Piece::Silent,
    }
}

// A line's end, whatever bytes write it, is a line feed; any other character says itself.
fn plain_piece(s: &[u8], at: usize) -> Piece
    ensures { result ≡ plain_piece s.now at }
{
    if letters::byte_at(s, at) != 13 {
        let width = letters::width_at(s, at);
        if width == 0 {
            return Piece::Silent;
        }
        return Piece::Itself(width);
    }
    if letters::byte_at(s, at + 1) == 10 {
        Piece::Other(10, at + 2)
    } else {
        Piece::Other(10, at + 1)
    }
}

fn piece_at(inside: bool, s: &[u8], at: usize) -> Piece
    ensures { result ≡ piece_at inside s.now at }
{
    if inside {
        if ends_section(s, at) {
            return Piece::Turns(at + 3);
        }
        return plain_piece(s, at);
    }
    let b = letters::byte_at(s, at);
    if b == b'<' {
        if starts_section(s, at) {
            return Piece::Turns(at + 9);
        }
        return Piece::Silent;
    }
    if b == b'&' {
        return other_of(letters::reference_at(s, at));
    }
    plain_piece(s, at)
}

// What the text that begins here says. It reads no further than what is kept.
// No `for`: a piece says no byte, one or more, so that nothing counts the turns.
pub fn said_at(s: &[u8], at: usize) -> Said
    ensures { Kept (said_at s.now at) result.bytes result.length }
{
    let mut bytes = [b' '; 35];
    let mut n = 0;
    let mut inside = false;
    let mut i = at;
    while n <= 35 {
        match piece_at(inside, s, i) {
            Piece::Itself(width) => {
                writing::put_text(&mut bytes, n, wire::text_at(s, i, width));
                n += width;
                i += width;
            }
            Piece::Other(c, next) => {
                letters::put_character(&mut bytes, n, c);
                n += letters::character_width(c);
                i = next;
            }
            Piece::Turns(next) => {
                inside = !inside;
                i = next;
            }
            Piece::Silent => {
                return Said { bytes, length: n };
            }
        }
    }
    Said { bytes, length: 36 }
}
