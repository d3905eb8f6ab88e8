// What the text of a field means: a number, or none where the text is of another form. Every function takes any text, so that nobody
// above has to ask for its form first.
#![tactic(auto)]

ghost use Rattle.std.specs.Prelude.{◌≡◌, true, ◌++◌, ◌+◌, ◌*◌, ◌^◌, ◌<◌, ◌≤◌, ltb, length, get_or, take, replicate};
ghost use Rattle.std.proofs.lemmas.List.Edits.{sets};
ghost use Rattle.letters.specs.Places.{run};
ghost use Rattle.meanings.specs.Meanings.{digit, digits, decimal, number_meant, amount_meant, is_date, date_number, date_meant, meant_if, filled, receiver};

// How many digits the text begins with.
fn run(t: &[u8]) -> usize
    ensures { result ≡ run digit t.now }
{
    t.iter()
        .position(|b| !b.is_ascii_digit())
        .unwrap_or(t.len())
}

// Whether it is all digits.
fn digits(t: &[u8]) -> bool
    ensures { result ≡ digits t.now }
{
    run(t) == t.len()
}

// The number that the digits write: eighteen of them fit 64 bits.
fn decimal(t: &[u8]) -> u64
    requires t_value { digits t.now ≡ true }
    requires t_len_bound { length t.now ≤ 18 }
    ensures { result ≡ decimal t.now }
{
    let mut v: u64 = 0;
    for b in t {
        v = v * 10 + (*b - b'0') as u64;
    }
    v
}

// A number is 1 to 15 digits.
pub fn number(t: &[u8]) -> Option<u64>
    ensures { result ≡ number_meant t.now }
{
    if digits(t) & (1 <= t.len()) & (t.len() <= 15) {
        Some(decimal(t))
    } else {
        None
    }
}

// The digits behind the point in cents: one digit alone counts tenths.
fn hundredths(t: &[u8]) -> u64
    requires t_value { digits t.now ≡ true }
    requires t_len_bound { length t.now ≤ 2 }
    ensures { result ≡ decimal (take 2 (t.now ++ replicate 2 48)) }
{
    if t.len() == 1 {
        decimal(t) * 10
    } else {
        decimal(t)
    }
}

// Euros and cents in cents, where 64 bits hold them.
fn in_cents(whole: u64, rest: u64) -> Option<u64>
    ensures { result ≡ meant_if (ltb (whole * 100 + rest) (2 ^ 64)) (whole * 100 + rest) }
{
    whole.checked_mul(100)?.checked_add(rest)
}

// An amount is 1 to 18 digits with a point or none, at most two of them behind it. Without a point nothing stands behind it.
pub fn amount(t: &[u8]) -> Option<u64>
    ensures { result ≡ amount_meant t.now }
{
    let n = run(t);
    let wholes = wire::text_at(t, 0, n);
    let parts = wire::text_at(t, n + 1, t.len());
    let count = wholes.len() + parts.len();
    let pointed = (n == t.len()) | (letters::byte_at(t, n) == b'.');
    if pointed & digits(parts) & (parts.len() <= 2) & (1 <= count) & (count <= 18) {
        in_cents(decimal(wholes), hundredths(parts))
    } else {
        None
    }
}

// Eight digits and two dashes stand at fixed places.
fn is_date(t: &[u8]) -> bool
    ensures { result ≡ is_date t.now }
{
    let all = digits(wire::text_at(t, 0, 4))
        & (digits(wire::text_at(t, 5, 2)) & digits(wire::text_at(t, 8, 2)));
    (t.len() == 10) & all & (letters::byte_at(t, 4) == b'-') & (letters::byte_at(t, 7) == b'-')
}

// Year, month and day as one number of eight digits.
fn in_eight(year: u64, month: u64, day: u64) -> u64
    requires { (year < 10000) × (month < 100) × (day < 100) }
    ensures { result ≡ year * 10000 + month * 100 + day }
{
    year * 10000 + month * 100 + day
}

fn date_number(t: &[u8]) -> u64
    requires { is_date t.now ≡ true }
    ensures { result ≡ date_number t.now }
{
    let year = decimal(wire::text_at(t, 0, 4));
    let month = decimal(wire::text_at(t, 5, 2));
    let day = decimal(wire::text_at(t, 8, 2));
    in_eight(year, month, day)
}

// A date is any eight digits with two dashes: whether there is such a day is not asked here.
pub fn date(t: &[u8]) -> Option<u64>
    ensures { result ≡ date_meant t.now }
{
    if is_date(t) {
        Some(date_number(t))
    } else {
        None
    }
}

// The byte at a place of the text, or of the spaces behind it.
fn filled_at(t: &[u8], at: usize) -> u8
    ensures { result ≡ get_or t.now at 32 }
{
    if at < t.len() { t[at] } else { b' ' }
}

// Writes the text in n bytes from place at on, filled up with spaces. What has no room is not written.
pub fn put_filled(d: &mut [u8], at: usize, n: usize, t: &[u8])
    ensures { d.new ≡ sets d.old at (filled n t.now) }
{
    let room = d.len() - wire::least(at, d.len());
    let m = wire::least(n, room);
    for i in 0..m {
        d[at + i] = filled_at(t, i);
    }
}

// Writes a receiver in eleven bytes from place at on.
pub fn put_receiver(d: &mut [u8], at: usize, t: &[u8])
    ensures { d.new ≡ sets d.old at (receiver t.now) }
{
    if t.len() == 8 {
        let mut office = [b'X'; 11];
        writing::put_text(&mut office, 0, t);
        writing::put_text(d, at, &office);
    } else {
        put_filled(d, at, 11, t);
    }
}
