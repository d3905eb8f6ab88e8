// Elements that are stepped over: in no role, like all that they hold, so that nothing is noted and nothing counted. Most are.
// These are `element` and `content` without notes and counts: one form, generic in what is noted, would be longer than the two.
ghost use Rattle.std.specs.Prelude.{◌≡◌};
ghost use Rattle.paths.specs.Roles.{other};
ghost use Rattle.elements.specs.Grammar.{element_at, content_at};
ghost use Rattle.elements.specs.Notes.{step_of};

use crate::begun::Begun;
use crate::{Stop, text_end};
use tags::Tag;

// An element that is stepped over, with so many levels left for it and what it holds.
#[cycle(skip_skip_content)]
pub(crate) fn skip(begun: &Begun, depth: usize) -> Result<usize, Stop>
    ensures { result ≡ step_of (element_at depth begun.now.text.now other begun.now.at) }
{
    if depth == 0 {
        return begun.too_deep();
    }
    let tag = begun.start()?;
    match tag {
        Tag::Open(_, inside) => {
            let end = skip_content(begun.text, inside, depth - 1)?;
            begun.close(end)
        }
        Tag::Empty(_, next) => Ok(next),
    }
}

// Text and elements that it holds, up to the '<' of an end tag.
#[cycle(skip_skip_content)]
fn skip_content(s: &[u8], at: usize, depth: usize) -> Result<usize, Stop>
    ensures { result ≡ step_of (content_at depth s.now other at) }
{
    let mut i = at;
    loop {
        let j = text_end(s, i)?;
        if letters::byte_at(s, j + 1) == b'/' {
            return Ok(j);
        }
        i = skip(&Begun::new(s, j), depth)?;
    }
}
