// What ends a start tag, and what an end tag is made of.
ghost use Rattle.std.specs.Prelude.{◌≡◌, ◌≤◌, length};
ghost use Rattle.wire.specs.Field.{text};
ghost use Rattle.letters.specs.Places.{between, expected};
ghost use Rattle.tags.specs.Names.{space_end, name_end};
ghost use Rattle.tags.specs.Tags.{closed_at};

use crate::Tag;
use letters::Reach;

// What ends a start tag.
pub(crate) fn closed(s: &[u8], at: usize) -> Result<Tag, usize>
    ensures { result ≡ closed_at s.now at }
{
    let b = letters::byte_at(s, at);
    if b == b'>' {
        return Ok(Tag::Open(at, at + 1));
    }
    if b != b'/' {
        return Err(at);
    }
    if letters::byte_at(s, at + 1) == b'>' {
        Ok(Tag::Empty(at, at + 2))
    } else {
        Err(at + 1)
    }
}

// Whether the name between two places stands at place at too: what is after it there, or where it differs. How much of it can be
// compared is settled in front, so that a byte costs no more than its comparison.
pub(crate) fn name_again(s: &[u8], from: usize, to: usize, at: usize) -> Reach
    requires to_value { to ≡ name_end s.now from }
    requires at_in_bounds { at ≤ length s.now }
    ensures { result ≡ expected s.now (between s.now from to) at }
{
    let n = wire::least(to - from, s.len() - at);
    for k in 0..n {
        let b = s[from + k];
        if s[at + k] != b {
            return Err(at + k);
        }
    }
    if from + n < to {
        Err(at + n)
    } else {
        Ok(at + n)
    }
}

// Spaces or none, and what ends an end tag.
pub(crate) fn end_closed(s: &[u8], at: usize) -> Reach
    ensures { result ≡ expected s.now (text ">") (space_end s.now at) }
{
    if letters::byte_at(s, at) == b'>' {
        return Ok(at + 1);
    }
    letters::expect(s, b">", crate::space_end(s, at))
}
