// Which codes a field may hold: BICs, reasons and names, or nothing but spaces. Each function takes any text and knows nothing of why
// it is asked.
#![tactic(auto)]

ghost use Rattle.std.specs.Prelude.{◌≡◌, cond, ◌≤◌, length};
ghost use Rattle.wording.specs.Wording.{upper, upper_or_digit, every, bic_formed, blank, one_of, reasons, answers_cancellation, names};

// Whether A-Z, or 0-9 where digits may stand too, are at each place from `from` up to `to`. The flag is plainer than a test handed in:
// there are two.
fn letters(s: &[u8], from: usize, to: usize, digits: bool) -> bool
    requires { to ≤ length s.now }
    ensures { result ≡ every (cond digits upper_or_digit upper) s.now from to }
{
    for i in from..to {
        let c = s[i];
        if !((b'A' <= c) & (c <= b'Z') | digits & ((b'0' <= c) & (c <= b'9'))) {
            return false;
        }
    }
    true
}

// Whether a text is a BIC of 11 characters.
pub fn bic_formed(s: &[u8]) -> bool
    ensures { result ≡ bic_formed s.now }
{
    if s.len() != 11 {
        return false;
    }
    letters(s, 0, 4, true) & letters(s, 4, 6, false) & letters(s, 6, 11, true)
}

// Whether a text is all spaces.
pub fn blank(s: &[u8]) -> bool
    ensures { result ≡ blank s.now }
{
    for i in 0..s.len() {
        if s[i] != b' ' {
            return false;
        }
    }
    true
}

// Whether a text is the code of a return reason.
pub fn known_reason(s: &[u8]) -> bool
    ensures { result ≡ one_of s.now reasons }
{
    let codes = b"AC01AC04AC06AG01AG02AM05BE04CNORFOCRMD07MS02MS03RC01RR01RR02RR03RR04";
    for i in 0..17 {
        if texts::same(s, wire::text_at(codes, 4 * i, 4)) {
            return true;
        }
    }
    false
}

// Whether a text is the code of a return that answers a cancellation request.
pub fn answers_cancellation(s: &[u8]) -> bool
    ensures { result ≡ answers_cancellation s.now }
{
    texts::same(s, b"FOCR")
}

// Whether a text is the name of a message that a return may answer.
pub fn known_name(s: &[u8]) -> bool
    ensures { result ≡ one_of s.now names }
{
    texts::same(s, b"pacs.008.001.08") | texts::same(s, b"pacs.008.001.02")
}
