// Text and decimal numbers, written into a lent buffer one piece after another: each function takes the place to write at and
// answers the place after. What has no room is not written, and no place is past the end. The buffer and the place stay two parameters:
// the public functions here and above take them so.
#![tactic(auto)]

ghost use Rattle.std.specs.Prelude.{◌≡◌, [], ◌∷◌, ◌+◌, ◌*◌, ◌^◌, ◌<◌, min, length};
ghost use Rattle.decimals.specs.Decimal.{digits_of, decimal, field};
ghost use Rattle.decimals.specs.Printed.{Printed};

// The place after n bytes from place at on.
pub fn place_after(at: usize, n: usize, end: usize) -> usize
    ensures { result ≡ min (at + n) end }
{
    let from = wire::least(at, end);
    from + wire::least(n, end - from)
}

pub fn put(out: &mut [u8], at: usize, s: &[u8]) -> usize
    ensures { Printed out.old out.new at result s.now }
{
    writing::put_text(out, at, s);
    place_after(at, s.len(), out.len())
}

pub fn put_byte(out: &mut [u8], at: usize, b: u8) -> usize
    ensures { Printed out.old out.new at result (b ∷ []) }
{
    if at < out.len() {
        out[at] = b;
        at + 1
    } else {
        out.len()
    }
}

// How many digits a number has.
fn width(v: u64) -> usize
    ensures { result ≡ length (decimal v) }
{
    match v.checked_ilog10() {
        Some(k) => k as usize + 1,
        None => 1,
    }
}

// The last n digits, with the zeros in front: stored from the last one on. Not one with `writing::put_number`: characters to the base 10
// are no plainer as a case of bytes to the base 256.
fn put_digits(out: &mut [u8], at: usize, n: usize, v: u64) -> usize
    ensures { Printed out.old out.new at result (digits_of n v) }
{
    let room = out.len() - wire::least(at, out.len());
    let mut rest = v;
    for i in (0..n).rev() {
        if i < room {
            out[at + i] = b'0' + (rest % 10) as u8;
        }
        rest /= 10;
    }
    place_after(at, n, out.len())
}

pub fn put_decimal(out: &mut [u8], at: usize, v: u64) -> usize
    ensures { Printed out.old out.new at result (decimal v) }
{
    put_digits(out, at, width(v), v)
}

// A number after a space.
pub fn put_field(out: &mut [u8], at: usize, v: u64) -> usize
    ensures { Printed out.old out.new at result (field v) }
{
    let next = put_byte(out, at, b' ');
    put_decimal(out, next, v)
}

// A number of ten bytes, as its high and its low half: divided by 10^9 limb by limb, which leaves nothing that passes 64 bits.
fn put_wide(out: &mut [u8], at: usize, high: u64, low: u64) -> usize
    requires { high < 65536 }
    ensures { Printed out.old out.new at result (decimal (high * 2 ^ 64 + low)) }
{
    let limb = high * 4294967296 + low / 4294967296;
    let last = limb % 1000000000 * 4294967296 + low % 4294967296;
    let front = limb / 1000000000 * 4294967296 + last / 1000000000;
    if front == 0 {
        return put_decimal(out, at, last % 1000000000);
    }
    let next = put_decimal(out, at, front);
    put_digits(out, next, 9, last % 1000000000)
}

// The same after a space.
pub fn put_wide_field(out: &mut [u8], at: usize, high: u64, low: u64) -> usize
    requires { high < 65536 }
    ensures { Printed out.old out.new at result (field (high * 2 ^ 64 + low)) }
{
    let next = put_byte(out, at, b' ');
    put_wide(out, next, high, low)
}
