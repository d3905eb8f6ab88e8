// The layout of a sheet: each place and each width stands here once, and in the definitions once.
ghost use Rattle.std.specs.Prelude.{◌≡◌, ◌+◌, ◌*◌, ◌^◌, ◌<◌};
ghost use Rattle.sheet.specs.Sheet.{count_width, header_width, message_width};

use wire::COUNT_WIDTH;

// The widths of texts.
pub(crate) const IDENTIFIER_WIDTH: usize = 35;

pub(crate) const SENDER_WIDTH: usize = 8;

pub(crate) const RECEIVER_WIDTH: usize = 11;

pub(crate) const REASON_WIDTH: usize = 4;

pub(crate) const NAME_WIDTH: usize = 15;

// Where the fields of a header begin; its kind is its first byte.
pub(crate) const BULK_IDENTIFIER_PLACE: usize = 1;

pub(crate) const SENDER_PLACE: usize = 36;

pub(crate) const STATED_NUMBER_PLACE: usize = 44;

pub(crate) const STATED_SUM_PLACE: usize = 52;

pub(crate) const VALUE_DATE_PLACE: usize = 60;

pub(crate) const MARKS_PLACE: usize = 64;

pub(crate) const HEADER_WIDTH: usize = 65;

// Where the fields of a message begin; its identifier comes first.
pub(crate) const RECEIVER_PLACE: usize = 35;

pub(crate) const AMOUNT_PLACE: usize = 46;

pub(crate) const ORIGINAL_PLACE: usize = 54;

pub(crate) const REASON_PLACE: usize = 62;

pub(crate) const NAME_PLACE: usize = 66;

pub(crate) const FIELDS_WIDTH: usize = 81;

// How wide a message is in a bulk of this kind: today every kind has the same fields.
pub(crate) fn message_width(kind: u8) -> usize
    ensures { result ≡ message_width kind }
{
    FIELDS_WIDTH
}

// Where the sections begin, after so many headers.
pub(crate) fn first_section(bulks: u32) -> usize
    ensures { result ≡ count_width + header_width * bulks }
{
    COUNT_WIDTH + HEADER_WIDTH * (bulks as usize)
}

// The place after a section of n messages of this kind, which begins at place at with its count.
pub(crate) fn after_messages(at: usize, kind: u8, n: u32) -> usize
    requires { at < 2 ^ 63 }
    ensures { result ≡ at + count_width + message_width kind * n }
{
    at + COUNT_WIDTH + message_width(kind) * (n as usize)
}
