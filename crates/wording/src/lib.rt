// How identifiers have to be worded. Each function takes any text and knows nothing of why it is asked.
#![tactic(auto)]

ghost use Rattle.std.specs.Prelude.{◌≡◌, not, ◌<◌, length};
ghost use Rattle.wording.specs.Wording.{allowed, kept, apart, spelled, formed, badly_formed};

// Whether a character may stand in an identifier. Nearly every one is a letter or lies in the run from + to :, the digits and the marks
// around them; so these are asked first.
pub fn allowed(c: u8) -> bool
    ensures { result ≡ allowed c }
{
    if (b'+' <= c) & (c <= b':') {
        return true;
    }
    if ((b'A' <= c) & (c <= b'Z')) | ((b'a' <= c) & (c <= b'z')) {
        return true;
    }
    ((b'\'' <= c) & (c <= b')')) | (c == b'?') | (c == b' ')
}

// How many characters are left when trailing spaces are dropped.
pub fn kept(s: &[u8]) -> usize
    ensures { result ≡ kept s.now }
{
    for n in (0..s.len()).rev() {
        if s[n] != b' ' {
            return n + 1;
        }
    }
    0
}

// Whether a slash at place i is followed by another.
fn doubled(t: &[u8], i: usize) -> bool
    requires { i < length t.now }
    ensures { result ≡ not (apart t.now i) }
{
    t[i] == b'/' && i + 1 < t.len() && t[i + 1] == b'/'
}

// Whether every character may stand in an identifier, and no two slashes stand together.
fn spelled(t: &[u8]) -> bool
    ensures { result ≡ spelled t.now }
{
    for i in 0..t.len() {
        if !allowed(t[i]) {
            return false;
        }
        if doubled(t, i) {
            return false;
        }
    }
    true
}

// The rest of the rule for identifiers, of a text that has lost its trailing spaces.
fn formed(t: &[u8]) -> bool
    ensures { result ≡ formed t.now }
{
    let n = t.len();
    if (n == 0) | (35 < n) {
        return false;
    }
    let first = t[0];
    if (first == b' ') | (first == b'/') | (t[n - 1] == b'/') {
        return false;
    }
    spelled(t)
}

// Whether an identifier, padded or not, is badly formed.
pub fn badly_formed(s: &[u8]) -> bool
    ensures { result ≡ badly_formed s.now }
{
    let n = kept(s);
    !formed(&s[..n])
}
