// One turn of the walk over a value, and of the walk over the attributes of a tag.
ghost use Rattle.std.specs.Prelude.{ℕ, ◌^◌, Bool, ◌≡◌, ◌<◌};
ghost use Rattle.tags.specs.Attributes.{value_turn, value_at, some_attribute, named, attribute_turn};
ghost use Rattle.tags.specs.Twice.{turn_by};

use letters::{Reach, Turn};

#[tactic(auto, unfolding(crate::specs::Attributes::value_turn))]
fn value_turn(s: &[u8], quote: u8, at: usize) -> Turn
    requires { 0 < quote }
    ensures { result ≡ value_turn quote s.now at }
{
    let b = letters::byte_at(s, at);
    if b == quote {
        return Turn::Ends(at + 1);
    }
    if b == b'<' {
        return Turn::Breaks(at);
    }
    if b == b'&' {
        crate::after_reference(s, at)
    } else {
        crate::after_character(s, at)
    }
}

// A value and its closing quote. No quote is 0, which is what stands past the end.
pub(crate) fn value(s: &[u8], quote: u8, at: usize) -> Reach
    requires { 0 < quote }
    ensures { result ≡ value_at quote s.now at }
{
    letters::walk(s, at, |i| value_turn(s, quote, i))
}

// Whether a test holds of the place of one of the attributes between two places.
pub(crate) fn some_attribute<F: Fn(usize) -> bool>(
    s: &[u8],
    from: usize,
    end: usize,
    test: F,
) -> bool
    requires { F.IsAlwaysCallable test }
    ensures { (holds : ℕ → Bool) → ((k : ℕ) (b : Bool) → k < 2 ^ 64 → F.post test k b → b ≡ holds k) → result ≡ some_attribute holds s.now from end }
{
    let mut i = from;
    loop {
        let k = crate::space_end(s, i);
        if end <= k {
            return false;
        }
        if test(k) {
            return true;
        }
        match crate::attribute(s, k) {
            Ok(n) => {
                i = n;
            }
            Err(_) => {
                return false;
            }
        }
    }
}

// Whether an attribute from place from on has the name that stands at place at, before that place. Before the first there is none.
fn named(s: &[u8], from: usize, at: usize) -> bool
    ensures { result ≡ named s.now from at }
{
    if at <= crate::space_end(s, from) {
        return false;
    }
    let name = crate::name_at(s, at);
    some_attribute(s, from, at, |k| texts::same(crate::name_at(s, k), name))
}

// A turn among attributes, by any way to tell whether the name at a place stood before.
pub(crate) fn turn_by<F: Fn(usize) -> bool>(s: &[u8], at: usize, stood: F) -> Turn
    requires { F.IsAlwaysCallable stood }
    ensures { (twice : ℕ → Bool) → ((k : ℕ) (b : Bool) → k < 2 ^ 64 → F.post stood k b → b ≡ twice k) → result ≡ turn_by twice s.now at }
{
    if !crate::is_space(letters::byte_at(s, at)) {
        return Turn::Ends(at);
    }
    let k = crate::space_end(s, at);
    if !crate::name_starts(letters::byte_at(s, k)) {
        return Turn::Ends(k);
    }
    if stood(k) {
        return Turn::Breaks(k);
    }
    // two arms here and in prose: a `From` with its clause would be longer
    match crate::attribute(s, k) {
        Ok(n) => Turn::On(n),
        Err(p) => Turn::Breaks(p),
    }
}

pub(crate) fn attribute_turn(s: &[u8], from: usize, at: usize) -> Turn
    ensures { result ≡ attribute_turn s.now from at }
{
    turn_by(s, at, |k| named(s, from, k))
}
