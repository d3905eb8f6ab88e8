// Numbers and text read from bytes. Every function but `four_at` takes any slice and any place: a field that runs past the end is read as
// what is left of it. So nobody above has to ask first.
#![tactic(auto)]

ghost use Rattle.std.specs.Prelude.{◌≡◌, ◌+◌, ◌%◌, ◌^◌, ◌≤◌, ◌<◌, min, length};
ghost use Rattle.wire.specs.Field.{part, number_of, number_at};

// What the count of a section takes.
pub const COUNT_WIDTH: usize = 4;

pub fn least(a: usize, b: usize) -> usize
    ensures { result ≡ min a b }
{
    a.min(b)
}

// A number of four bytes that are known to be there. The compiler makes one load of it.
pub fn four_at(s: &[u8], at: usize) -> u64
    requires { at + 4 ≤ length s.now }
    ensures { (result ≡ number_at s.now at 4) × (result < 256 ^ 4) }
{
    u64::from(u32::from_be_bytes([s[at], s[at + 1], s[at + 2], s[at + 3]]))
}

// The number that s writes, highest byte first, modulo 2^64: exact up to eight bytes. The widths that are read most take a load or two.
pub fn number(s: &[u8]) -> u64
    ensures { result ≡ number_of s.now % 2 ^ 64 }
{
    if s.len() == 8 {
        return four_at(s, 0) * 4294967296 + four_at(s, 4);
    }
    if s.len() == 4 {
        return four_at(s, 0);
    }
    let mut v: u64 = 0;
    for byte in s {
        v = v % 72057594037927936 * 256 + u64::from(*byte);
    }
    v
}

// The n bytes from place at on, or what is left of them.
#[tactic(auto, using(crate::proofs::Texts::part_between))]
pub fn text_at(s: &[u8], at: usize, n: usize) -> &[u8]
    ensures { result.now ≡ part s.now at n }
{
    let from = at.min(s.len());
    let to = from + n.min(s.len() - from);
    &s[from..to]
}

// The number in the N bytes from place at on.
fn field<const N: usize>(s: &[u8], at: usize) -> u64
    requires { N ≤ 8 }
    ensures { (result ≡ number_at s.now at N) × (result < 256 ^ N) }
{
    number(text_at(s, at, N))
}

pub fn u8_at(s: &[u8], at: usize) -> u8
    ensures { result ≡ number_at s.now at 1 }
{
    field::<1>(s, at) as u8
}

pub fn u16_at(s: &[u8], at: usize) -> u16
    ensures { result ≡ number_at s.now at 2 }
{
    field::<2>(s, at) as u16
}

pub fn u32_at(s: &[u8], at: usize) -> u32
    ensures { result ≡ number_at s.now at 4 }
{
    field::<4>(s, at) as u32
}

pub fn u64_at(s: &[u8], at: usize) -> u64
    ensures { result ≡ number_at s.now at 8 }
{
    field::<8>(s, at)
}
