// Whether an attribute says that an amount is in euros.
ghost use Rattle.std.specs.Prelude.{◌≡◌, ◌<◌};
ghost use Rattle.wire.specs.Field.{text};
ghost use Rattle.tags.specs.Attributes.{letter_at, euro_end, spells, in_euros};

use letters::Reach;

// The place after a letter, which stands itself or by a reference.
#[tactic(auto, unfolding(crate::specs::Attributes::letter_at))]
fn letter(s: &[u8], c: u8, at: usize) -> Reach
    requires { 0 < c }
    ensures { result ≡ letter_at c s.now at }
{
    if letters::byte_at(s, at) == c {
        return Ok(at + 1);
    }
    match letters::reference_at(s, at) {
        Some(r) if r.character == c as usize => Ok(r.next),
        _ => Err(at),
    }
}

// The place after the letters EUR.
fn euro_end(s: &[u8], at: usize) -> Reach
    ensures { result ≡ euro_end s.now at }
{
    let a = letter(s, b'E', at)?;
    let b = letter(s, b'U', a)?;
    letter(s, b'R', b)
}

// Whether EUR and the closing quote stand here. Text, quote and place stay parameters, as `spells` takes them.
fn spells_euros(s: &[u8], quote: u8, at: usize) -> bool
    ensures { result ≡ spells (text "EUR") quote s.now at }
{
    match euro_end(s, at) {
        Ok(e) => letters::byte_at(s, e) == quote,
        Err(_) => false,
    }
}

// Whether the attribute whose name begins here is Ccy="EUR".
pub(crate) fn is_euros(s: &[u8], at: usize) -> bool
    ensures { result ≡ in_euros s.now at }
{
    if !texts::same(crate::name_at(s, at), b"Ccy") {
        return false;
    }
    let equals = crate::space_end(s, crate::name_end(s, at));
    if s.len() <= equals {
        return false;
    }
    let from = crate::space_end(s, equals + 1);
    if s.len() <= from {
        return false;
    }
    spells_euros(s, s[from], from + 1)
}
