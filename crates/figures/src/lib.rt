// The lines that show figures only: a position, the entries in use, a refusal. Each is printed into a lent buffer.
#![tactic(auto)]

ghost use Rattle.decimals.specs.Printed.{Printed};
ghost use Rattle.figures.specs.Figures.{signed_text, position_text, number_text, used_text, refusal_text};

// The number that a position's bits stand for, after a space.
fn put_signed(out: &mut [u8], at: usize, bits: u64) -> usize
    ensures { Printed out.old out.new at result (signed_text bits) }
{
    let cents = positions::magnitude(bits);
    if positions::is_negative(bits) {
        let minus = decimals::put(out, at, b" -");
        return decimals::put_decimal(out, minus, cents);
    }
    decimals::put_field(out, at, cents)
}

// The position of a row, of which these are the bits, if it isn't 0.
pub fn put_position(out: &mut [u8], at: usize, row: usize, bits: u64) -> usize
    ensures { Printed out.old out.new at result (position_text row bits) }
{
    if bits == 0 {
        return wire::least(at, out.len());
    }
    let begun = decimals::put_byte(out, at, b'P');
    let named = decimals::put_field(out, begun, row as u64);
    let told = put_signed(out, named, bits);
    decimals::put_byte(out, told, b'\n')
}

// A letter and one number.
fn put_number(out: &mut [u8], at: usize, letter: u8, number: u32) -> usize
    ensures { Printed out.old out.new at result (number_text letter number) }
{
    let begun = decimals::put_byte(out, at, letter);
    let told = decimals::put_field(out, begun, number as u64);
    decimals::put_byte(out, told, b'\n')
}

// The number of entries in use.
pub fn put_used(out: &mut [u8], at: usize, number: u32) -> usize
    ensures { Printed out.old out.new at result (used_text number) }
{
    put_number(out, at, b'=', number)
}

// The number of a refusal.
pub fn put_refusal(out: &mut [u8], at: usize, number: u32) -> usize
    ensures { Printed out.old out.new at result (refusal_text number) }
{
    put_number(out, at, b'X', number)
}
