// Numbers and text written in bytes. Every function takes any slice and any place: what has no room is not written. So nobody above
// has to ask first.
#![tactic(auto)]

ghost use Rattle.std.specs.Prelude.{◌≡◌, ◌*◌, ◌+◌, ◌^◌};
ghost use Rattle.std.proofs.lemmas.List.Edits.{sets};
ghost use Rattle.wire.specs.Field.{bytes_of};

// Writes v in the n bytes from place at on.
pub fn put_number(d: &mut [u8], at: usize, n: usize, v: u64)
    ensures { d.new ≡ sets d.old at (bytes_of n v) }
{
    let room = d.len() - at.min(d.len());
    let mut rest = v;
    for i in (0..n).rev() {
        if i < room {
            d[at + i] = (rest % 256) as u8;
        }
        rest = rest / 256;
    }
}

// Writes a number that may pass 64 bits, given as its high and its low half, in the ten bytes from place at on.
pub fn put_halves(d: &mut [u8], at: usize, high: u64, low: u64)
    ensures { d.new ≡ sets d.old at (bytes_of 10 (high * 2 ^ 64 + low)) }
{
    put_number(d, at, 2, high);
    if at < d.len() {
        put_number(d, at + 2, 8, low);
    }
}

// Writes the text s from place at on. Byte by byte, of which the compiler makes a copy of what is apart: `copy_from_slice` would ask a
// caller in C for one of what may overlap, `memmove`.
pub fn put_text(d: &mut [u8], at: usize, s: &[u8])
    ensures { d.new ≡ sets d.old at s.now }
{
    let room = d.len() - at.min(d.len());
    let n = s.len().min(room);
    for i in 0..n {
        d[at + i] = s[i];
    }
}
