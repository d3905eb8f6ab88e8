// The sheet's records, from the places at which the fields' texts begin: the header of a bulk, and a message. Every function takes any
// slices and any place: what has no room is not written. So nobody above has to ask first.
#![tactic(auto)]

ghost use Rattle.std.specs.Prelude.{◌≡◌, ◌<◌, get_or};
ghost use Rattle.std.proofs.lemmas.List.Edits.{sets};
ghost use Rattle.wire.specs.Field.{bit};
ghost use Rattle.prose.specs.Prose.{said_at};
ghost use Rattle.records.specs.Records.{there, said_of, field_of, kind_of, marks_of, header_of, message_of};

// Where the fields of a header begin, after its kind.
const BULK_IDENTIFIER_PLACE: usize = 1;

const SENDER_PLACE: usize = 36;

const STATED_NUMBER_PLACE: usize = 44;

const STATED_SUM_PLACE: usize = 52;

const VALUE_DATE_PLACE: usize = 60;

const MARKS_PLACE: usize = 64;

// The kind and the marks take a byte each.
const KIND_WIDTH: usize = 1;

const MARKS_WIDTH: usize = 1;

// Where the fields of a message begin, after its identifier.
const RECEIVER_PLACE: usize = 35;

const AMOUNT_PLACE: usize = 46;

const ORIGINAL_PLACE: usize = 54;

const REASON_PLACE: usize = 62;

const NAME_PLACE: usize = 66;

// ---- what is noted

// A document, and where the text of each role begins in it: 0 where no element plays the role. A slice that roles index, since memory is
// fixed and any slice is taken.
#[derive(Clone, Copy)]
struct Noted<'a> {
    text: &'a [u8],
    places: &'a [usize],
}

impl<'a> Noted<'a> {
    fn place(&self, role: usize) -> usize
        ensures { result ≡ get_or self.now.places.now role 0 }
    {
        self.places.get(role).copied().unwrap_or(0)
    }

    // Whether an element plays the role.
    fn is_there(&self, role: usize) -> bool
        ensures { result ≡ there (λ k. get_or self.now.places.now k 0) role }
    {
        self.place(role) != 0
    }

    // Where to read the text of a role; a missing one is read at the end, where nothing is said.
    fn text_of(&self, role: usize) -> usize
        ensures { said_at self.now.text.now result ≡ said_of self.now.text.now (λ k. get_or self.now.places.now k 0) role }
    {
        if self.is_there(role) {
            self.place(role)
        } else {
            self.text.len()
        }
    }

    // Payments or returns.
    fn kind(&self) -> u8
        ensures { result ≡ kind_of (λ k. get_or self.now.places.now k 0) }
    {
        if self.is_there(paths::PAYMENTS) {
            sheet::PAYMENT
        } else {
            sheet::RETURN
        }
    }

    // How the bulk is settled, through which system, and whether a recipient is named.
    fn marks(&self) -> u64
        ensures { result ≡ marks_of self.now.text.now (λ k. get_or self.now.places.now k 0) }
    {
        let clearing = fields::clearing_at(self.text, self.text_of(paths::METHOD));
        let system = fields::system_at(self.text, self.text_of(paths::SYSTEM));
        let recipient = self.is_there(paths::RECIPIENT);
        bit_of(clearing) + 2 * bit_of(system) + 4 * bit_of(recipient)
    }

    // Writes the field of a role from place at on.
    fn put(&self, d: &mut [u8], at: usize, role: usize)
        ensures { d.new ≡ sets d.old at (field_of self.now.text.now (λ k. get_or self.now.places.now k 0) role) }
    {
        fields::put_field(d, at, role, self.text, self.text_of(role));
    }
}

// No plainer by `From`, since `marks` needs the bound too.
fn bit_of(fact: bool) -> u64
    ensures { (result ≡ bit fact) × (result < 2) }
{
    fact as u64
}

// ---- writing

// Writes the header of a bulk from place at on. Past the end nothing is written, and no place is a number too large.
pub fn put_header(d: &mut [u8], at: usize, s: &[u8], places: &[usize])
    ensures { d.new ≡ sets d.old at (header_of s.now (λ k. get_or places.now k 0)) }
{
    if d.len() <= at {
        return;
    }
    let noted = Noted { text: s, places };
    writing::put_number(d, at, KIND_WIDTH, noted.kind() as u64);
    noted.put(d, at + BULK_IDENTIFIER_PLACE, paths::BULK_IDENTIFIER);
    noted.put(d, at + SENDER_PLACE, paths::SENDER);
    noted.put(d, at + STATED_NUMBER_PLACE, paths::STATED_NUMBER);
    noted.put(d, at + STATED_SUM_PLACE, paths::STATED_SUM);
    noted.put(d, at + VALUE_DATE_PLACE, paths::VALUE_DATE);
    writing::put_number(d, at + MARKS_PLACE, MARKS_WIDTH, noted.marks());
}

// Writes a message from place at on, likewise.
pub fn put_message(d: &mut [u8], at: usize, s: &[u8], places: &[usize])
    ensures { d.new ≡ sets d.old at (message_of s.now (λ k. get_or places.now k 0)) }
{
    if d.len() <= at {
        return;
    }
    let noted = Noted { text: s, places };
    noted.put(d, at, paths::IDENTIFIER);
    noted.put(d, at + RECEIVER_PLACE, paths::RECEIVER);
    noted.put(d, at + AMOUNT_PLACE, paths::AMOUNT);
    noted.put(d, at + ORIGINAL_PLACE, paths::ORIGINAL_AMOUNT);
    noted.put(d, at + REASON_PLACE, paths::REASON);
    noted.put(d, at + NAME_PLACE, paths::ORIGINAL_NAME);
}
