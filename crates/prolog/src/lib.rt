// What stands before the first document: a mark, a declaration, spaces. Every function takes any text and any place.
#![tactic(auto)]

ghost use Rattle.std.specs.Prelude.{◌≡◌};
ghost use Rattle.wire.specs.Field.{text};
ghost use Rattle.letters.specs.Places.{run_end, expected};
ghost use Rattle.prolog.specs.Prolog.{after_mark, same_letter, any_case, digit, version_end, encoding_end, standalone_end, number_of, setting_name};
ghost use Rattle.prolog.specs.Prolog.{value_end, quoted, equated, setting_at, maybe_setting, declaration_at, prolog};

use letters::{Bytes, Reach};

// ---- the values of settings

fn is_digit(b: u8) -> bool
    ensures { result ≡ digit b }
{
    (48 <= b) & (b <= 57)
}

#[derive(Clone, Copy)]
struct Digit;

impl Bytes for Digit {
    ghost holds = { λ self. digit };

    fn has(&self, b: u8) -> bool {
        is_digit(b)
    }
}

// The place after the digits that stand here.
fn digits_end(s: &[u8], at: usize) -> usize
    ensures { result ≡ run_end digit s.now at }
{
    letters::run_end(s, at, Digit)
}

// A digit or more after the point. A value of another form ends where it begins, here and below.
fn version_end(s: &[u8], at: usize) -> usize
    ensures { result ≡ version_end s.now at }
{
    if !letters::stands_at(s, at, b"1.") {
        return at;
    }
    let to = digits_end(s, at + 2);
    if at + 2 < to { to } else { at }
}

// Whether a byte is the letter c, a capital, or the small one: what is no capital is only itself.
fn same_letter(b: u8, c: u8) -> bool
    ensures { result ≡ same_letter b c }
{
    (b == c) | ((b'A' <= c) & (c <= b'Z')) & (b as usize == c as usize + 32)
}

fn is_utf8(s: &[u8], at: usize) -> bool
    ensures { result ≡ any_case (text "UTF-8") s.now at }
{
    let t = wire::text_at(s, at, 5);
    if t.len() < 5 {
        return false;
    }
    same_letter(t[0], b'U')
        & same_letter(t[1], b'T')
        & same_letter(t[2], b'F')
        & same_letter(t[3], b'-')
        & same_letter(t[4], b'8')
}

fn encoding_end(s: &[u8], at: usize) -> usize
    ensures { result ≡ encoding_end s.now at }
{
    if is_utf8(s, at) { at + 5 } else { at }
}

fn standalone_end(s: &[u8], at: usize) -> usize
    ensures { result ≡ standalone_end s.now at }
{
    if letters::stands_at(s, at, b"yes") {
        return at + 3;
    }
    if letters::stands_at(s, at, b"no") {
        at + 2
    } else {
        at
    }
}

// ---- a setting

// Which setting it is.
#[derive(Clone, Copy)]
enum Key {
    Version,
    Encoding,
    Standalone,
}

// Its name, or where that breaks off. Text and place stay parameters, as the definitions of the reader take them (`setting_at`).
fn name(k: Key, s: &[u8], at: usize) -> Reach
    ensures { result ≡ expected s.now (setting_name (number_of k)) at }
{
    match k {
        Key::Version => letters::expect(s, b"version", at),
        Key::Encoding => letters::expect(s, b"encoding", at),
        Key::Standalone => letters::expect(s, b"standalone", at),
    }
}

fn value_end(k: Key, s: &[u8], at: usize) -> usize
    ensures { result ≡ value_end (number_of k) s.now at }
{
    match k {
        Key::Version => version_end(s, at),
        Key::Encoding => encoding_end(s, at),
        Key::Standalone => standalone_end(s, at),
    }
}

// A value between two quotes of one kind. A place is added to only where a byte over 0 stands, which is in the text.
fn quoted(k: Key, s: &[u8], at: usize) -> Reach
    ensures { result ≡ quoted (number_of k) s.now at }
{
    let quote = letters::byte_at(s, at);
    if !tags::is_quote(quote) {
        return Err(at);
    }
    let from = at + 1;
    let to = value_end(k, s, from);
    if to <= from {
        return Err(from);
    }
    if letters::byte_at(s, to) == quote {
        Ok(to + 1)
    } else {
        Err(from)
    }
}

// '=' with spaces round it, and the value.
fn equated(k: Key, s: &[u8], at: usize) -> Reach
    ensures { result ≡ equated (number_of k) s.now at }
{
    let equals = tags::space_end(s, at);
    if letters::byte_at(s, equals) != b'=' {
        return Err(equals);
    }
    quoted(k, s, tags::space_end(s, equals + 1))
}

#[tactic(auto, unfolding(crate::specs::Prolog::setting_at))]
fn setting(k: Key, s: &[u8], at: usize) -> Reach
    ensures { result ≡ setting_at (number_of k) s.now at }
{
    if !tags::is_space(letters::byte_at(s, at)) {
        return Err(at);
    }
    let n = name(k, s, tags::space_end(s, at))?;
    equated(k, s, n)
}

// A setting that is there where a name with this first letter is.
fn maybe_setting(k: Key, letter: u8, s: &[u8], at: usize) -> Reach
    ensures { result ≡ maybe_setting (number_of k) letter s.now at }
{
    if letters::byte_at(s, tags::space_end(s, at)) == letter {
        setting(k, s, at)
    } else {
        Ok(at)
    }
}

// ---- the whole

// What follows '<?xml'.
#[tactic(auto, unfolding(crate::specs::Prolog::declaration_at))]
fn declaration(s: &[u8], at: usize) -> Reach
    ensures { result ≡ declaration_at s.now at }
{
    let a = setting(Key::Version, s, at)?;
    let b = maybe_setting(Key::Encoding, b'e', s, a)?;
    let c = maybe_setting(Key::Standalone, b's', s, b)?;
    letters::expect(s, b"?>", tags::space_end(s, c))
}

fn after_mark(s: &[u8]) -> usize
    ensures { result ≡ after_mark s.now }
{
    if letters::stands_at(s, 0, &[239, 187, 191]) {
        3
    } else {
        0
    }
}

// Where the first document begins, or where the form is broken before it.
#[tactic(auto, unfolding(crate::specs::Prolog::prolog))]
pub fn first_place(s: &[u8]) -> Reach
    ensures { result ≡ prolog s.now }
{
    let from = after_mark(s);
    if !letters::stands_at(s, from, b"<?xml") {
        return Ok(tags::space_end(s, from));
    }
    let n = declaration(s, from + 5)?;
    Ok(tags::space_end(s, n))
}
