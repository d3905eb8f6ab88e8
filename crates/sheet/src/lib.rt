// The sheet of a file: a cursor that reads its records one after the other, a walk over its bulks, whether it is whole, and the kinds
// of its bulks. It knows the layout and no rule of judging; nobody above knows a place or a width.
#![tactic(auto)]

mod layout;

ghost use Rattle.std.specs.Prelude.{◌≡◌, false, ◌+◌, ◌*◌, ◌<◌, ◌≤◌, length};
ghost use Rattle.sheet.specs.Sheet.{count_width, header_width, header_at, kind_of, message_width, bulk_identifier_of, sender_of, identifier_of, receiver_of, reason_of, name_of, headers_of, shape, kinds_known, mixed};
ghost use Rattle.sheet.specs.Reading.{header_in, message_in, CountRead, HeaderRead, MessageRead, WalkStarted, Inside, BulkTaken, shape_of};

// The kinds of a bulk: pacs.008 and pacs.004. Numbers and no enum: a header may state any byte, and `kinds_known` is what tells.
pub const PAYMENT: u8 = 1;

pub const RETURN: u8 = 3;

// A place in the sheet. Each method hands back the place after what it read.
#[derive(Clone, Copy)]
pub struct Cursor {
    pub at: usize,
}

#[derive(Clone, Copy)]
pub struct Counted {
    pub count: u32,
    pub next: Cursor,
}

// The numbers of a header, and where it begins. Its texts are read by name, where they are asked for.
#[derive(Clone, Copy)]
pub struct Header {
    pub at: usize,
    pub kind: u8,
    pub number: u64,
    pub sum: u64,
    pub date: u32,
    pub marks: u8,
    pub next: Cursor,
}

// The numbers of a message, its bulk's kind, and where it begins.
#[derive(Clone, Copy)]
pub struct Message {
    pub at: usize,
    pub kind: u8,
    pub amount: u64,
    pub original: u64,
    pub next: Cursor,
}

// The messages of a bulk: where the first begins, and how many there are.
#[derive(Clone, Copy)]
pub struct Section {
    pub at: usize,
    pub number: usize,
}

// Where the next bulk's header and its section begin.
#[derive(Clone, Copy)]
pub struct Walk {
    pub heads: Cursor,
    pub bodies: Cursor,
}

#[derive(Clone, Copy)]
pub struct BulkRead {
    pub header: Header,
    pub section: Section,
    pub next: Walk,
}

// What a whole sheet holds.
#[derive(Debug, Clone, Copy, PartialEq, Eq)]
pub struct Contents {
    pub bulks: usize,
    pub messages: usize,
}

impl Cursor {
    pub fn count(self, s: &[u8]) -> Counted
        requires { self.at + count_width ≤ length s.now }
        ensures { CountRead s.now self.at result }
    {
        let at = self.at;
        Counted {
            count: wire::u32_at(s, at),
            next: Cursor {
                at: at + wire::COUNT_WIDTH,
            },
        }
    }

    pub fn header(self, s: &[u8]) -> Header
        requires { self.at + header_width ≤ length s.now }
        ensures { HeaderRead s.now self.at result }
    {
        let at = self.at;
        Header {
            at,
            kind: wire::u8_at(s, at),
            number: wire::u64_at(s, at + layout::STATED_NUMBER_PLACE),
            sum: wire::u64_at(s, at + layout::STATED_SUM_PLACE),
            date: wire::u32_at(s, at + layout::VALUE_DATE_PLACE),
            marks: wire::u8_at(s, at + layout::MARKS_PLACE),
            next: Cursor {
                at: at + layout::HEADER_WIDTH,
            },
        }
    }

    // A message of a bulk of this kind.
    pub fn message(self, s: &[u8], kind: u8) -> Message
        requires { self.at + message_width kind ≤ length s.now }
        ensures { MessageRead s.now kind self.at result }
    {
        let at = self.at;
        Message {
            at,
            kind,
            amount: wire::u64_at(s, at + layout::AMOUNT_PLACE),
            original: wire::u64_at(s, at + layout::ORIGINAL_PLACE),
            next: Cursor {
                at: at + layout::message_width(kind),
            },
        }
    }
}

// The texts of a header, which holds no sheet, as `header_in` takes the two apart; so each is lent the sheet, and says that it is in there.
impl Header {
    pub fn identifier(self, s: &[u8]) -> &[u8]
        requires { self.at + header_width ≤ length s.now }
        ensures { result.now ≡ bulk_identifier_of (header_in s.now self) }
    {
        let at = self.at;
        wire::text_at(
            s,
            at + layout::BULK_IDENTIFIER_PLACE,
            layout::IDENTIFIER_WIDTH,
        )
    }

    pub fn sender(self, s: &[u8]) -> &[u8]
        requires { self.at + header_width ≤ length s.now }
        ensures { result.now ≡ sender_of (header_in s.now self) }
    {
        let at = self.at;
        wire::text_at(s, at + layout::SENDER_PLACE, layout::SENDER_WIDTH)
    }
}

// The texts of a message, likewise (`message_in`). Each has a function of its own name, so that nobody above knows a place or a width.
impl Message {
    pub fn identifier(self, s: &[u8]) -> &[u8]
        requires { self.at + message_width self.kind ≤ length s.now }
        ensures { result.now ≡ identifier_of (message_in s.now self) }
    {
        let at = self.at;
        wire::text_at(s, at, layout::IDENTIFIER_WIDTH)
    }

    pub fn receiver(self, s: &[u8]) -> &[u8]
        requires { self.at + message_width self.kind ≤ length s.now }
        ensures { result.now ≡ receiver_of (message_in s.now self) }
    {
        let at = self.at;
        wire::text_at(s, at + layout::RECEIVER_PLACE, layout::RECEIVER_WIDTH)
    }

    pub fn reason(self, s: &[u8]) -> &[u8]
        requires { self.at + message_width self.kind ≤ length s.now }
        ensures { result.now ≡ reason_of (message_in s.now self) }
    {
        let at = self.at;
        wire::text_at(s, at + layout::REASON_PLACE, layout::REASON_WIDTH)
    }

    pub fn name(self, s: &[u8]) -> &[u8]
        requires { self.at + message_width self.kind ≤ length s.now }
        ensures { result.now ≡ name_of (message_in s.now self) }
    {
        let at = self.at;
        wire::text_at(s, at + layout::NAME_PLACE, layout::NAME_WIDTH)
    }
}

impl Walk {
    // At the first bulk.
    pub fn start(s: &[u8]) -> Walk
        ensures { WalkStarted s.now result }
    {
        Walk {
            heads: Cursor {
                at: wire::COUNT_WIDTH,
            },
            bodies: Cursor {
                at: layout::first_section(wire::u32_at(s, 0)),
            },
        }
    }

    // The bulk that comes next, and the walk after it.
    pub fn bulk(self, s: &[u8]) -> BulkRead
        requires { Inside s.now self.heads.at self.bodies.at }
        ensures { BulkTaken s.now self.heads.at self.bodies.at result }
    {
        let heads = self.heads;
        let bodies = self.bodies;
        let header = heads.header(s);
        let counted = bodies.count(s);
        let next = header.next;
        let first = counted.next;
        BulkRead {
            header,
            section: Section {
                at: first.at,
                number: counted.count as usize,
            },
            next: Walk {
                heads: next,
                bodies: Cursor {
                    at: layout::after_messages(bodies.at, header.kind, counted.count),
                },
            },
        }
    }
}

// The kind that header k states.
fn kind_at(s: &[u8], k: usize) -> u8
    requires { count_width + header_width * k < length s.now }
    ensures { result ≡ kind_of (header_at s.now (count_width + header_width * k)) }
{
    s[wire::COUNT_WIDTH + layout::HEADER_WIDTH * k]
}

// What the sheet holds, if it is whole. Any bytes may be asked about: what runs past the end reads as what is left, and the place then
// stands past the end too.
pub fn measure(s: &[u8]) -> Option<Contents>
    ensures { shape_of result ≡ shape s.now }
{
    let count = wire::u32_at(s, 0);
    let bulks = count as usize;
    let mut at = layout::first_section(count);
    let mut messages = 0;
    for k in 0..bulks {
        if s.len() < at {
            return None;
        }
        let n = wire::u32_at(s, at);
        at = layout::after_messages(at, kind_at(s, k), n);
        messages += n as usize;
    }
    if at == s.len() {
        Some(Contents { bulks, messages })
    } else {
        None
    }
}

// Whether each of the first n headers is of a known kind.
pub fn kinds_known(s: &[u8], n: usize) -> bool
    requires { count_width + header_width * n ≤ length s.now }
    ensures { result ≡ kinds_known (headers_of s.now n) }
{
    for k in 0..n {
        let kind = kind_at(s, k);
        if !((kind == PAYMENT) | (kind == RETURN)) {
            return false;
        }
    }
    true
}

// Whether among the first n headers a payment stands after a return.
pub fn kinds_mixed(s: &[u8], n: usize) -> bool
    requires { count_width + header_width * n ≤ length s.now }
    ensures { result ≡ mixed false (headers_of s.now n) }
{
    let mut seen = false;
    for k in 0..n {
        let kind = kind_at(s, k);
        if seen & (kind == PAYMENT) {
            return true;
        }
        seen = seen | (kind == RETURN);
    }
    false
}
