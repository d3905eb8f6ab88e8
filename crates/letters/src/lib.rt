// What stands at a place of a text: bytes, words, characters in UTF-8, references. Every function takes any text and any place.
#![tactic(auto)]

ghost use Rattle.std.specs.Prelude.{ℕ, ◌+◌, ◌^◌, Bool, ◌≡◌, ◌≤◌, ◌<◌, min, length};
ghost use Rattle.std.proofs.lemmas.List.Edits.{sets};
ghost use Rattle.letters.specs.Places.{Reach, byte_at, within, run_end, on_turn, expected};
ghost use Rattle.letters.specs.declared.Turn.{Turn};
ghost use Rattle.letters.specs.declared.Turn.TheVariants.{On};
ghost use Rattle.letters.specs.Characters.{is_character, single, double, triple, quadruple, width_of, width_at, encoded};
ghost use Rattle.letters.specs.References.{digit_of, digit_in, numeral, numbered_at, stands, reference_at, refers};

// Where something ends, or the place at which its form is broken.
pub type Reach = Result<usize, usize>;

// One turn of a walk: it goes on from a place, ends at one, or breaks there.
#[derive(Clone, Copy)]
pub enum Turn {
    On(usize),
    Ends(usize),
    Breaks(usize),
}

// A reference: the number of the character that it stands for, and the place after it.
#[derive(Clone, Copy)]
pub struct Reference {
    pub character: usize,
    pub next: usize,
}

// The byte at a place, or 0.
pub fn byte_at(s: &[u8], at: usize) -> u8
    ensures { result ≡ byte_at s.now at }
{
    if at < s.len() { s[at] } else { 0 }
}

// A kind of bytes.
pub trait Bytes {
    ghost holds: { Self → ℕ → Bool };

    fn has(&self, b: u8) -> bool
        ensures { result ≡ holds self.now b };
}

// The place after the bytes of a kind that stand from a place on.
pub fn run_end<B: Bytes + Copy>(s: &[u8], at: usize, kind: B) -> usize
    ensures { result ≡ run_end (B.holds kind) s.now at }
{
    if s.len() <= at {
        return at;
    }
    for i in at..s.len() {
        if !kind.has(s[i]) {
            return i;
        }
    }
    s.len()
}

// Where a walk ends that goes on turn by turn, each from the place that the one before led to; or where it breaks.
pub fn walk<F: Fn(usize) -> Turn>(s: &[u8], at: usize, turn: F) -> Reach
    requires callable { F.IsAlwaysCallable turn }
    requires onward { (i n : ℕ) → i < 2 ^ 64 → F.post turn i (On n) → (i < n) × (i < length s.now) }
    ensures { (reach : ℕ → Reach) → ((i : ℕ) (t : Turn) → i < 2 ^ 64 → F.post turn i t → on_turn t reach ≡ reach i) → result ≡ reach at }
{
    let mut i = at;
    loop {
        match turn(i) {
            Turn::On(next) => {
                i = next;
            }
            Turn::Ends(e) => {
                return Ok(e);
            }
            Turn::Breaks(p) => {
                return Err(p);
            }
        }
    }
}

// Whether the word stands at the place; if not, the first place at which it does not.
pub fn expect(s: &[u8], word: &[u8], at: usize) -> Reach
    ensures { result ≡ expected s.now word.now at }
{
    let mut p = at;
    for b in word {
        if s.len() <= p || s[p] != *b {
            return Err(p);
        }
        p += 1;
    }
    Ok(p)
}

// Whether the word stands at the place.
pub fn stands_at(s: &[u8], at: usize, word: &[u8]) -> bool
    ensures { result ≡ stands s.now at word.now }
{
    texts::same(wire::text_at(s, at, word.len()), word)
}

// ---- characters

fn within(low: u8, high: u8, b: u8) -> bool
    ensures { result ≡ within low high b }
{
    (low <= b) & (b <= high)
}

// Those that text is mostly made of: one byte each.
pub fn is_single(a: u8) -> bool
    ensures { result ≡ single a }
{
    (a == 9) | (a == 10) | (a == 13) | (32 <= a) & (a <= 127)
}

fn is_double(a: u8, b: u8) -> bool
    ensures { result ≡ double a b }
{
    within(194, 223, a) & within(128, 191, b)
}

// The bytes stay parameters, as `triple` and `quadruple` take them.
fn is_triple(a: u8, b: u8, c: u8) -> bool
    ensures { result ≡ triple a b c }
{
    within(224, 239, a)
        & within(128, 191, b)
        & within(128, 191, c)
        & !((a == 224) & (b < 160))
        & !((a == 237) & (160 <= b))
        & !((a == 239) & (b == 191) & (190 <= c))
}

fn is_quadruple(a: u8, b: u8, c: u8, d: u8) -> bool
    ensures { result ≡ quadruple a b c d }
{
    within(240, 244, a)
        & within(128, 191, b)
        & within(128, 191, c)
        & within(128, 191, d)
        & !((a == 240) & (b < 144))
        & !((a == 244) & (144 <= b))
}

// How many bytes the character takes that these begin with, or 0, as the definition of its name has it.
#[tactic(auto, unfolding(crate::specs::Characters::width_of))]
fn width_of(a: u8, b: u8, c: u8, d: u8) -> usize
    ensures { result ≡ width_of a b c d }
{
    if is_single(a) {
        return 1;
    }
    if is_double(a, b) {
        return 2;
    }
    if is_triple(a, b, c) {
        return 3;
    }
    if is_quadruple(a, b, c, d) { 4 } else { 0 }
}

// The byte so many places after a place; the sum of the two may pass what a number holds.
fn byte_after(s: &[u8], at: usize, n: usize) -> u8
    ensures { result ≡ byte_at s.now (at + n) }
{
    if s.len() <= at {
        return 0;
    }
    if n < s.len() - at { s[at + n] } else { 0 }
}

// How many bytes the character at a place takes, or 0 where there is none.
#[tactic(auto, unfolding(crate::specs::Characters::width_at))]
pub fn width_at(s: &[u8], at: usize) -> usize
    ensures { result ≡ width_at s.now at }
{
    let a = byte_at(s, at);
    if is_single(a) {
        return 1;
    }
    width_of(
        a,
        byte_after(s, at, 1),
        byte_after(s, at, 2),
        byte_after(s, at, 3),
    )
}

// Whether a number is that of a character.
#[tactic(auto, unfolding(crate::specs::Characters::is_character))]
fn is_character(c: usize) -> bool
    ensures { result ≡ is_character c }
{
    (c == 9)
        | (c == 10)
        | (c == 13)
        | (32 <= c) & (c <= 55295)
        | (57344 <= c) & (c <= 65533)
        | (65536 <= c) & (c <= 1114111)
}

// How many bytes a character takes.
#[tactic(auto, unfolding(crate::specs::Characters::encoded))]
pub fn character_width(c: usize) -> usize
    ensures { result ≡ length (encoded c) }
{
    if c < 128 {
        return 1;
    }
    if c < 2048 {
        return 2;
    }
    if c < 65536 { 3 } else { 4 }
}

// Writes a character from place at on.
#[tactic(auto, unfolding(crate::specs::Characters::encoded))]
pub fn put_character(d: &mut [u8], at: usize, c: usize)
    ensures { d.new ≡ sets d.old at (encoded c) }
{
    let last = (128 + c / 1 % 64) as u8;
    if c < 128 {
        writing::put_text(d, at, &[c as u8]);
        return;
    }
    if c < 2048 {
        writing::put_text(d, at, &[(192 + c / 64) as u8, last]);
        return;
    }
    let third = (128 + c / 64 % 64) as u8;
    if c < 65536 {
        writing::put_text(d, at, &[(224 + c / 4096) as u8, third, last]);
        return;
    }
    writing::put_text(
        d,
        at,
        &[
            (240 + c / 262144 % 8) as u8,
            (128 + c / 4096 % 64) as u8,
            third,
            last,
        ],
    );
}

// ---- references

// No character has a number as high as this.
const LIMIT: usize = 1114112;

// What a digit counts, or 99, as the definition of its name has it.
#[tactic(auto, unfolding(crate::specs::References::digit_of))]
fn digit_of(b: u8) -> usize
    ensures { (result ≡ digit_of b) × (result < 100) }
{
    if within(48, 57, b) {
        return (b - 48) as usize;
    }
    if within(97, 102, b) {
        return (b - 87) as usize;
    }
    if within(65, 70, b) {
        (b - 55) as usize
    } else {
        99
    }
}

// The digits to a base.
#[derive(Clone, Copy)]
struct Digit {
    base: usize,
}

impl Bytes for Digit {
    ghost holds = { λ self. digit_in self.base };

    fn has(&self, b: u8) -> bool {
        digit_of(b) < self.base
    }
}

// The number that digits write; of one that is too high for a character, that it is.
fn numeral(s: &[u8], base: usize) -> usize
    requires { (0 < base) × (base ≤ 16) }
    ensures { result ≡ min (numeral base s.now) 1114112 }
{
    let mut v = 0;
    for b in s {
        v = wire::least(v * base + digit_of(*b), LIMIT);
    }
    v
}

// The reference to a character by its number, and the place after it.
fn refers(character: usize, next: usize) -> Option<Reference>
    ensures { result ≡ refers character next }
{
    Some(Reference { character, next })
}

// Digits from a place on, and a semicolon.
fn numbered_at(s: &[u8], from: usize, base: usize) -> Option<Reference>
    requires { (0 < base) × (base ≤ 16) }
    ensures { result ≡ numbered_at base s.now from }
{
    let to = run_end(s, from, Digit { base });
    if to <= from {
        return None;
    }
    if byte_at(s, to) != b';' {
        return None;
    }
    let c = numeral(wire::text_at(s, from, to - from), base);
    if is_character(c) {
        refers(c, to + 1)
    } else {
        None
    }
}

// The reference at a place: one of five names, or a number to the base 16 or 10.
#[tactic(auto, unfolding(crate::specs::References::reference_at))]
pub fn reference_at(s: &[u8], at: usize) -> Option<Reference>
    ensures { result ≡ reference_at s.now at }
{
    if stands_at(s, at, b"&lt;") {
        return refers(60, at + 4);
    }
    if stands_at(s, at, b"&gt;") {
        return refers(62, at + 4);
    }
    if stands_at(s, at, b"&amp;") {
        return refers(38, at + 5);
    }
    if stands_at(s, at, b"&apos;") {
        return refers(39, at + 6);
    }
    if stands_at(s, at, b"&quot;") {
        return refers(34, at + 6);
    }
    if stands_at(s, at, b"&#x") {
        return numbered_at(s, at + 3, 16);
    }
    if stands_at(s, at, b"&#") {
        return numbered_at(s, at + 2, 10);
    }
    None
}
