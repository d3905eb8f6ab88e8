// The fields of the sheet: which form the text of each must have, by its role, and the bytes that it becomes. A text that does not say
// its own bytes is asked by what is kept of what it says: no form allows more bytes than that. Every function takes any role, any slice
// and any place.
#![tactic(auto)]

ghost use Rattle.std.specs.Prelude.{◌≡◌, [], ◌<◌, length, IfSome};
ghost use Rattle.std.proofs.lemmas.List.Edits.{sets};
ghost use Rattle.wire.specs.Field.{part, same};
ghost use Rattle.prose.specs.Prose.{said_at};
ghost use Rattle.fields.specs.Told.{is_cut, bytes_told, ToldOf};
ghost use Rattle.fields.specs.Fields.{is_mark, width_of, fits, meant_bytes, field_bytes, is_clearing, is_system};

use prose::Said;

// How many bytes the sheet has for a text.
const SENDER_WIDTH: usize = 8;

const RECEIVER_WIDTH: usize = 11;

const REASON_WIDTH: usize = 4;

const NAME_WIDTH: usize = 15;

// The widest: as much is kept of what a text says.
const MOST_KEPT: usize = 35;

// ---- texts

// How many bytes of its own the text at a place says, where it is that simple. Nearly every text is straight bytes up to a tag, and says
// those; it is read where it stands, with no copy.
fn straight_at(s: &[u8], at: usize) -> Option<usize>
    ensures { IfSome result (λ n. said_at s.now at ≡ part s.now at n) }
{
    let e = prose::straight_end(s, at);
    if letters::byte_at(s, e) == b'<' {
        if letters::byte_at(s, e + 1) != b'!' {
            return Some(e - at);
        }
    }
    None
}

// What a text says: its own bytes where they stand, or those that are kept of it.
#[derive(Clone, Copy)]
enum Told<'a> {
    Straight(&'a [u8]),
    Kept(Said),
}

impl<'a> Told<'a> {
    // What the text at a place says. Written into its callers, it makes no copy of what is kept.
    #[inline(always)]
    fn at(s: &'a [u8], at: usize) -> Self
        ensures { ToldOf (said_at s.now at) result }
    {
        match straight_at(s, at) {
            Some(n) => Told::Straight(wire::text_at(s, at, n)),
            None => Told::Kept(prose::said_at(s, at)),
        }
    }

    // Whether it says more than is kept.
    fn is_cut(&self) -> bool
        ensures { result ≡ is_cut self.now }
    {
        match self {
            Told::Straight(_) => false,
            Told::Kept(said) => MOST_KEPT < said.length,
        }
    }

    // All of it, or what is kept.
    fn bytes(&self) -> &[u8]
        ensures { result.now ≡ bytes_told self.now }
    {
        match self {
            Told::Straight(t) => t,
            Told::Kept(said) => wire::text_at(&said.bytes, 0, said.length),
        }
    }
}

// ---- forms

fn is_mark(role: usize) -> bool
    ensures { result ≡ is_mark role }
{
    (role == paths::METHOD) | (role == paths::SYSTEM)
}

fn width_of(role: usize) -> usize
    ensures { result ≡ width_of role }
{
    match role {
        paths::SENDER => SENDER_WIDTH,
        paths::RECEIVER => RECEIVER_WIDTH,
        paths::REASON => REASON_WIDTH,
        paths::ORIGINAL_NAME => NAME_WIDTH,
        _ => MOST_KEPT,
    }
}

// Whether a whole text has the form that its role asks for.
fn fits_text(role: usize, t: &[u8]) -> bool
    ensures { result ≡ fits role t.now }
{
    match role {
        _ if is_mark(role) => true,
        paths::STATED_NUMBER => meanings::number(t).is_some(),
        paths::VALUE_DATE => meanings::date(t).is_some(),
        _ if paths::is_amount(role) => meanings::amount(t).is_some(),
        _ => t.len() <= width_of(role),
    }
}

// The same for what the text of an element says. One that is longer than is kept has no form but that of a mark.
pub fn fits_at(role: usize, s: &[u8], at: usize) -> bool
    ensures { result ≡ fits role (said_at s.now at) }
{
    let told = Told::at(s, at);
    if told.is_cut() {
        is_mark(role)
    } else {
        fits_text(role, told.bytes())
    }
}

// An element that says nothing.
pub fn fits_empty(role: usize) -> bool
    ensures { result ≡ fits role [] }
{
    fits_text(role, b"")
}

// ---- bytes

// Writes what a text means in n bytes; 0 for one that means nothing.
fn put_meant(d: &mut [u8], place: usize, n: usize, m: Option<u64>)
    ensures { d.new ≡ sets d.old place (meant_bytes n m) }
{
    writing::put_number(d, place, n, m.unwrap_or(0));
}

// Writes the bytes of a field whose whole text is at hand.
fn put_text(d: &mut [u8], place: usize, role: usize, t: &[u8])
    ensures { d.new ≡ sets d.old place (field_bytes role t.now) }
{
    match role {
        paths::STATED_NUMBER => put_meant(d, place, 8, meanings::number(t)),
        paths::VALUE_DATE => put_meant(d, place, 4, meanings::date(t)),
        paths::RECEIVER => meanings::put_receiver(d, place, t),
        _ if paths::is_amount(role) => put_meant(d, place, 8, meanings::amount(t)),
        _ => meanings::put_filled(d, place, width_of(role), t),
    }
}

// Writes the bytes of a field from what its text says. What is cut off one that is too long to be kept leaves the same bytes.
pub fn put_field(d: &mut [u8], place: usize, role: usize, s: &[u8], at: usize)
    ensures { d.new ≡ sets d.old place (field_bytes role (said_at s.now at)) }
{
    put_text(d, place, role, Told::at(s, at).bytes());
}

// ---- marks

// Whether the text says a word: one that is shorter than what is kept.
fn says(s: &[u8], at: usize, word: &[u8]) -> bool
    requires { length word.now < 35 }
    ensures { result ≡ same (said_at s.now at) word.now }
{
    match Told::at(s, at) {
        Told::Straight(t) => texts::same(t, word),
        Told::Kept(said) => texts::same(wire::text_at(&said.bytes, 0, said.length), word),
    }
}

// Whether the text says that the bulk is settled by a clearing system.
pub fn clearing_at(s: &[u8], at: usize) -> bool
    ensures { result ≡ is_clearing (said_at s.now at) }
{
    says(s, at, b"CLRG")
}

// Whether it names this system.
pub fn system_at(s: &[u8], at: usize) -> bool
    ensures { result ≡ is_system (said_at s.now at) }
{
    says(s, at, b"EKS")
}
