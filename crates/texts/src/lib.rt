// Texts compared, eight bytes at a time. Proved: any two slices are called equal exactly if they are as long and byte for byte equal.
#![tactic(auto)]

ghost use Rattle.std.specs.Prelude.{◌≡◌, reverse, ◌+◌, ◌^◌, ◌≤◌, ◌<◌, length};
ghost use Rattle.wire.specs.Field.{part, number_of, same};

// Eight bytes from place at on as a number, lowest byte first: so the processor loads them in one step.
fn eight_at(s: &[u8], at: usize) -> u64
    requires { at + 8 ≤ length s.now }
    ensures { result ≡ number_of (reverse (part s.now at 8)) }
{
    u64::from_le_bytes([
        s[at],
        s[at + 1],
        s[at + 2],
        s[at + 3],
        s[at + 4],
        s[at + 5],
        s[at + 6],
        s[at + 7],
    ])
}

// Whether two texts are equal in the eight bytes from place at on. That they are as long stays a clause: a struct of the two would be made
// once for each comparison, no plainer.
fn same_eight(a: &[u8], b: &[u8], at: usize) -> bool
    requires { (at + 8 ≤ length a.now) × (length a.now ≡ length b.now) }
    ensures { result ≡ same (part a.now at 8) (part b.now at 8) }
{
    eight_at(a, at) == eight_at(b, at)
}

// Texts of at least eight bytes, from the far end, since texts often share a long front. The last step takes the first eight bytes, of
// which some may have been compared.
fn same_words(a: &[u8], b: &[u8]) -> bool
    requires { (8 ≤ length a.now) × (length a.now ≡ length b.now) }
    ensures { result ≡ same a.now b.now }
{
    let last = a.len() - 8;
    if !same_eight(a, b, last) {
        return false;
    }
    let mut end = last;
    // As a `for` no plainer: its places are those of `(9..last + 1).rev().step_by(8)`.
    while 8 < end {
        if !same_eight(a, b, end - 8) {
            return false;
        }
        end -= 8;
    }
    same_eight(a, b, 0)
}

fn same_bytes(a: &[u8], b: &[u8]) -> bool
    requires { length a.now ≡ length b.now }
    ensures { result ≡ same a.now b.now }
{
    for i in 0..a.len() {
        if a[i] != b[i] {
            return false;
        }
    }
    true
}

// Whether two texts are equal; it looks no further than the first word that differs.
pub fn same(a: &[u8], b: &[u8]) -> bool
    ensures { result ≡ same a.now b.now }
{
    if a.len() != b.len() {
        return false;
    }
    if a.len() < 8 {
        same_bytes(a, b)
    } else {
        same_words(a, b)
    }
}
