// The table, the register and the sheets that the cases change.
ghost use Rattle.std.specs.Prelude.{◌≡◌, ◌<◌, length};

pub(crate) const TODAY: u32 = 20260615;

// In a sheet of one bulk, where its messages are counted and where they begin.
const COUNT: usize = 69;

const MESSAGES: usize = 73;

// What a message takes, and what a bulk takes that holds one.
const MESSAGE: usize = 81;

const BULK: usize = 150;

const ENTRY: usize = 44;

const IDENTIFIER: usize = 35;

const TABLE: usize = 64;

// A sheet of one bulk and two messages, from which the others are made.
pub(crate) const MODEL: usize = 235;

// Room for the largest sheet, for the register that it needs and for its report.
pub(crate) const LARGE: usize = 1215196;

// So many zeros. The contract spares callers the counting.
pub(crate) fn large() -> [u8; LARGE]
    ensures { 1215196 ≡ length result }
{
    [0u8; LARGE]
}

pub(crate) fn model() -> [u8; MODEL] {
    [0u8; MODEL]
}

// Three rows: the sender, a receiver, and a branch of the receiver that is not reachable (kind 0). All count from 2000-01-01 to
// 2299-12-31, so on every date.
pub(crate) fn table() -> [u8; TABLE] {
    *b"\x00\x00\x00\x03AAAALV22XXX\x011\x2D\x65\x01\x5E\xD1\x7F\x05BBBBLV22XXX\x011\x2D\x65\x01\x5E\xD1\x7F\x05BBBBLV22KUL\x011\x2D\x65\x01\x5E\xD1\x7F\x00"
}

// A text, filled up to its width.
pub(crate) fn put_padded(d: &mut [u8], at: usize, width: usize, words: &[u8]) {
    let blank = [b' '; IDENTIFIER];
    writing::put_text(d, at, wire::text_at(&blank, 0, width));
    writing::put_text(d, at, words);
}

// Adds an entry.
pub(crate) fn put_entry(register: &mut [u8], sender: &[u8], identifier: &[u8], tag: u64) {
    let k = register::used(register) as usize;
    let at = 4 + ENTRY * k;
    writing::put_text(register, at, sender);
    put_padded(register, at + 8, IDENTIFIER, identifier);
    writing::put_number(register, at + 43, 1, tag);
    writing::put_number(register, 0, 4, k as u64 + 1);
}

#[derive(Clone, Copy)]
pub(crate) struct Field {
    pub place: usize,
    pub width: usize,
}

fn made(place: usize, width: usize) -> Field
    ensures { result.place ≡ place }
{
    Field { place, width }
}

// A field of the header or of the first message, by its letter.
fn first(letter: u8) -> Field
    ensures { result.place < 256 }
{
    match letter {
        b'h' => made(0, 4),
        b'k' => made(4, 1),
        b'b' => made(5, IDENTIFIER),
        b'f' => made(40, 8),
        b'n' => made(48, 8),
        b's' => made(56, 8),
        b'v' => made(64, 4),
        b'm' => made(68, 1),
        b'c' => made(COUNT, 4),
        b'i' => made(MESSAGES, IDENTIFIER),
        b't' => made(108, 11),
        b'a' => made(119, 8),
        b'o' => made(127, 8),
        b'r' => made(135, 4),
        _ => made(139, 15),
    }
}

// A capital names a field of the second message.
pub(crate) fn named(letter: u8) -> Field {
    let first = first(letter % 32 + 96);
    if letter < b'a' {
        Field {
            place: first.place + MESSAGE,
            width: first.width,
        }
    } else {
        first
    }
}

// The sheet, by its counts.
pub(crate) fn whole(sheet: &[u8]) -> &[u8] {
    let bulks = wire::u32_at(sheet, 0) as usize;
    if bulks == 1 {
        wire::text_at(
            sheet,
            0,
            MESSAGES + MESSAGE * (wire::u32_at(sheet, COUNT) as usize),
        )
    } else {
        wire::text_at(sheet, 0, 4 + BULK * bulks)
    }
}

// A copy with the number i for an identifier, which stands `inner` bytes into it.
fn put_copy(sheet: &mut [u8], at: usize, copied: &[u8], inner: usize, i: u32) {
    writing::put_text(sheet, at, copied);
    let identifier = decimals::place_after(at, inner, sheet.len());
    put_padded(sheet, identifier, IDENTIFIER, b"");
    decimals::put_decimal(sheet, identifier, i as u64);
}

// So many copies, one behind the other.
pub(crate) fn put_copies(sheet: &mut [u8], to: usize, copied: &[u8], inner: usize, n: u32) {
    let mut at = to;
    for i in 0..n {
        put_copy(sheet, at, copied, inner, i);
        at = decimals::place_after(at, copied.len(), sheet.len());
    }
}
