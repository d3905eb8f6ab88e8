// An element of a text that begins at a place. Where its name ends is known, so that no name is looked through twice.
ghost use Rattle.std.specs.Prelude.{◌≡◌, ◌+◌, ◌<◌, length};
ghost use Rattle.tags.specs.Names.{name_end, name_at};
ghost use Rattle.tags.specs.Tags.{end_at, start_at};
ghost use Rattle.paths.specs.Table.{child_role};
ghost use Rattle.elements.specs.Notes.{formed, closed_by, shallow};

use crate::Stop;
use tags::Tag;

#[derive(Clone, Copy)]
pub(crate) struct Begun<'a> {
    pub text: &'a [u8],
    pub at: usize,
    pub to: usize,
    ghost named: { to ≡ name_end text.now (at + 1) },
}

impl<'a> Begun<'a> {
    pub(crate) fn new(text: &'a [u8], at: usize) -> Begun<'a>
        requires { at < length text.now }
        ensures text_kept { result.text.now ≡ text.now }
        ensures at_kept { result.at ≡ at }
    {
        Begun {
            text,
            at,
            to: tags::name_end(text, at + 1),
        }
    }

    // The role that it plays in a group of a role.
    pub(crate) fn role_in(&self, role: usize) -> usize
        requires { self.now.at < length self.now.text.now }
        ensures { result ≡ child_role role (name_at self.now.text.now (self.now.at + 1)) }
    {
        let name = self.at + 1;
        paths::child_role(role, wire::text_at(self.text, name, self.to - name))
    }

    // What it is where no level is left: a start tag is too deep.
    pub(crate) fn too_deep(&self) -> Result<usize, Stop>
        ensures { result ≡ shallow self.now.text.now self.now.at }
    {
        if self.at < self.text.len() {
            if tags::name_starts(letters::byte_at(self.text, self.at + 1)) {
                return Err(Stop::Deep(self.at));
            }
            return Err(Stop::Form(self.at + 1));
        }
        Err(Stop::Form(self.at))
    }

    pub(crate) fn start(&self) -> Result<Tag, Stop>
        ensures { result ≡ formed (start_at self.now.text.now self.now.at) }
    {
        tags::start_from(self.text, self.at, self.to).map_err(Stop::Form)
    }

    // Its end tag, at a place. Called from three functions, it would not be written into them otherwise.
    #[inline(always)]
    pub(crate) fn close(&self, end: usize) -> Result<usize, Stop>
        ensures { result ≡ closed_by (end_at self.now.text.now self.now.at end) }
    {
        tags::end_from(self.text, self.at, self.to, end).map_err(Stop::Form)
    }
}
