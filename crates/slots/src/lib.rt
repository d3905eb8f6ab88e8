// An index in lent bytes: open slots that name records by the texts of their keys. It knows how many bytes the records have and where their
// keys stand, and nothing of what they mean.
#![tactic(auto)]

ghost use Rattle.std.specs.Prelude.{◌≡◌, ◌+◌, ◌-◌, ◌*◌, ◌≤◌, ◌<◌, length};
ghost use Rattle.wire.specs.Field.{same};
ghost use Rattle.slots.specs.Slots.{start_at, names, stops_at};
ghost use Rattle.slots.specs.Stored.{digits, slot_width, most_slots, slot_count, slot_at, slots_of, key_in, searched_in, added, built_in};
ghost use Rattle.slots.specs.Asked.{Within, Sized, front_width, front_in, front_at, Behind, Begun, end_of, taken};

pub const SLOT_WIDTH: usize = 4;

// So that four digits of a key and a remainder fit 64 bits.
const MOST_SLOTS: usize = 2147483648;

// What a byte of a key weighs more than the next, and what two and four of them do.
const BASE: u64 = 257;

const SQUARE: u64 = BASE * BASE;

const FOURTH: u64 = SQUARE * SQUARE;

// Where the keys of records stand: one every `stride` bytes from `first` on, each of `width` bytes.
#[derive(Clone, Copy)]
pub struct Layout {
    pub first: u32,
    pub stride: u32,
    pub width: u32,
}

// The end of a search: the slot, its content, and the number of slots that were looked at.
#[derive(Clone, Copy)]
pub struct Ended {
    pub place: u32,
    pub name: u32,
    pub read: u32,
}

fn slot_count(index: &[u8]) -> u32
    ensures { result ≡ slot_count index.now }
{
    wire::least(index.len() / SLOT_WIDTH, MOST_SLOTS) as u32
}

// The content of a slot.
fn slot_at(index: &[u8], at: u32) -> u32
    requires { slot_width * at + slot_width ≤ length index.now }
    ensures { result ≡ slot_at index.now at }
{
    wire::four_at(index, SLOT_WIDTH * (at as usize)) as u32
}

fn key_in(layout: Layout, records: &[u8], k: u32) -> &[u8]
    requires { layout.first + layout.stride * k + layout.width ≤ length records.now }
    ensures { result.now ≡ key_in layout records.now k }
{
    let at = layout.first as usize + layout.stride as usize * k as usize;
    let end = at + layout.width as usize;
    &records[at..end]
}

// Which of n slots a key's search looks at first, where the bytes before place `from` come to `front`. Four digits are taken in before
// each remainder.
fn start_from(key: &[u8], n: u32, from: usize, front: u32) -> u32
    requires { Begun key.now n from front }
    ensures { result ≡ start_at (digits key.now) n }
{
    if n == 0 {
        return 0;
    }
    let m = u64::from(n);
    let mut v = u64::from(front);
    let mut rest = &key[from..];
    while let Some(([a, b, c, d], tail)) = rest.split_first_chunk::<4>() {
        let high = u64::from(*a) * BASE + u64::from(*b);
        let low = u64::from(*c) * BASE + u64::from(*d);
        v = (v * FOURTH + high * SQUARE + low) % m;
        rest = tail;
    }
    for x in rest {
        v = (v * BASE + u64::from(*x)) % m;
    }
    v as u32
}

fn start(key: &[u8], n: u32) -> u32
    requires { n ≤ most_slots }
    ensures { result ≡ start_at (digits key.now) n }
{
    start_from(key, n, 0, 0)
}

fn front_width(layout: Layout) -> usize
    ensures { result ≡ front_width layout }
{
    let fours = layout.width as usize / 4;
    4 * (fours - wire::least(2, fours))
}

fn front_in(layout: Layout, records: &[u8], k: u32) -> &[u8]
    requires { layout.first + layout.stride * k + layout.width ≤ length records.now }
    ensures { result.now ≡ front_in layout records.now k }
{
    wire::text_at(key_in(layout, records, k), 0, front_width(layout))
}

// What the front of record k comes to. Keys that follow one another mostly share it, so it is mostly known from the record before.
fn front_at(layout: Layout, records: &[u8], n: u32, k: u32, last: u32) -> u32
    requires { Behind layout records.now n k last }
    ensures { result ≡ front_at layout records.now n k }
{
    let front = front_in(layout, records, k);
    if k == 0 {
        return start(front, n);
    }
    if texts::same(front, front_in(layout, records, k - 1)) {
        return last;
    }
    start(front, n)
}

// Whether a slot's content names one of the first `bound` records.
pub fn names(bound: u32, name: u32) -> bool
    ensures { result ≡ names bound name }
{
    (name != 0) & (name <= bound)
}

fn stops_at(layout: Layout, records: &[u8], bound: u32, looked: &[u8], name: u32) -> bool
    requires { Within layout records.now bound }
    ensures { result ≡ stops_at (key_in layout records.now) bound looked.now name }
{
    if !names(bound, name) {
        return true;
    }
    texts::same(key_in(layout, records, name - 1), looked)
}

// Looks for a key among the first `bound` records, from the slot where its search starts up to the last slot, then from the first.
// Layout, records and bound stay three parameters: a struct of them would be made anew for each search, since the bound moves.
fn search_from(
    layout: Layout,
    records: &[u8],
    bound: u32,
    looked: &[u8],
    index: &[u8],
    from: u32,
) -> Ended
    requires { (Within layout records.now bound) × (from ≡ start_at (digits looked.now) (slot_count index.now)) }
    ensures { end_of result ≡ searched_in layout records.now bound looked.now index.now }
{
    let n = slot_count(index);
    for at in from..n {
        let name = slot_at(index, at);
        if stops_at(layout, records, bound, looked, name) {
            return Ended {
                place: at,
                name,
                read: at - from + 1,
            };
        }
    }
    for round in 0..from {
        let name = slot_at(index, round);
        if stops_at(layout, records, bound, looked, name) {
            return Ended {
                place: round,
                name,
                read: n - from + round + 1,
            };
        }
    }
    Ended {
        place: n,
        name: 0,
        read: n,
    }
}

// Looks for a key among the first `bound` records. Any index will do; the records have to reach.
pub fn search(layout: Layout, records: &[u8], bound: u32, looked: &[u8], index: &[u8]) -> Ended
    requires { Within layout records.now bound }
    ensures { end_of result ≡ searched_in layout records.now bound looked.now index.now }
{
    let from = start(looked, slot_count(index));
    search_from(layout, records, bound, looked, index, from)
}

// Names record k where the search of its key among those before it ended, unless that found one.
pub fn add(index: &mut [u8], ended: Ended, k: u32)
    ensures { index.new ≡ added (end_of ended) k index.old }
{
    if !names(k, ended.name) {
        writing::put_number(
            index,
            SLOT_WIDTH * (ended.place as usize),
            SLOT_WIDTH,
            k as u64 + 1,
        );
    }
}

// Writes the index of the first m records.
pub fn build(layout: Layout, records: &[u8], m: u32, index: &mut [u8])
    requires { Within layout records.now m }
    ensures { index.new ≡ built_in layout records.now (length index.old) m }
{
    index.fill(0);
    for k in 0..m {
        let ended = search(layout, records, k, key_in(layout, records, k), index);
        add(index, ended, k);
    }
}

// The slots that are not empty.
fn taken(index: &[u8]) -> u32
    ensures { result ≡ taken (slots_of index.now) }
{
    let n = slot_count(index);
    let mut t = 0;
    for i in 0..n {
        if slot_at(index, i) != 0 {
            t += 1;
        }
    }
    t
}

// Whether an index is the one of the first m records, told in place: each key's search among the records before it ends at the slot that
// names it, or at an equal one before it, and no other slot is taken.
pub fn is_built(layout: Layout, records: &[u8], m: u32, index: &[u8]) -> bool
    requires { (Within layout records.now m) × (Sized index.now m) }
    ensures { result ≡ same index.now (built_in layout records.now (length index.now) m) }
{
    let all = taken(index);
    // a slot too many, so that a foreign index cannot make every search long
    if m < all {
        return false;
    }
    let n = slot_count(index);
    let mut front = 0;
    let mut count = 0;
    for k in 0..m {
        front = front_at(layout, records, n, k, front);
        let key = key_in(layout, records, k);
        let from = start_from(key, n, front_width(layout), front);
        let ended = search_from(layout, records, k, key, index, from);
        let name = ended.name;
        if !names(k + 1, name) {
            return false;
        }
        if name == k + 1 {
            count += 1;
        }
    }
    all == count
}
