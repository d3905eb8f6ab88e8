// Positions: the signed cents of each row, in two's complement. Whether they leave room for a file, and a payment.
#![tactic(auto)]

ghost use Rattle.std.specs.Prelude.{◌≡◌};
ghost use Rattle.std.proofs.Math.Option.{some};
ghost use Rattle.positions.specs.Positions.{HasRow, rows, fits, position_at, negative, magnitude, has_room, room_for_all, gains, pays};

pub const POSITION_WIDTH: usize = 8;

const MOST_POSITION: u64 = 1000000000000000000;

// The first bits that stand for a number below 0.
const HALF: u64 = 9223372036854775808;

// The whole rows that the positions hold.
pub fn rows(positions: &[u8]) -> usize
    ensures { result ≡ rows positions.now }
{
    positions.len() / POSITION_WIDTH
}

// Whether the positions are those of so many rows; if not of the table's, that is refusal 3.
pub fn fit(positions: &[u8], rows: usize) -> bool
    ensures { result ≡ fits positions.now rows }
{
    (positions.len() / POSITION_WIDTH == rows) & (positions.len() % POSITION_WIDTH == 0)
}

// The position of row i, as its 64 bits.
pub fn position_at(positions: &[u8], i: usize) -> u64
    ensures { result ≡ position_at positions.now i }
{
    if rows(positions) < i {
        return 0;
    }
    wire::u64_at(positions, POSITION_WIDTH * i)
}

// Whether the bits stand for a number below 0.
pub fn is_negative(bits: u64) -> bool
    ensures { result ≡ negative bits }
{
    HALF <= bits
}

// How far from 0 the bits lie.
pub fn magnitude(bits: u64) -> u64
    ensures { result ≡ magnitude bits }
{
    if is_negative(bits) {
        bits.wrapping_neg()
    } else {
        bits
    }
}

#[tactic(auto, using(crate::proofs::Laws::room_none, crate::proofs::Laws::room_test))]
fn has_room(positions: &[u8], cents: u64, i: usize) -> bool
    requires { HasRow positions.now i }
    ensures { result ≡ has_room positions.now cents i }
{
    let held = magnitude(wire::u64_at(positions, POSITION_WIDTH * i));
    cents <= MOST_POSITION && held <= MOST_POSITION - cents
}

// Whether each row's position could take so many cents more, either way, and stay within 10^18; if not, that is refusal 10.
pub fn room_for_all(positions: &[u8], cents: u64) -> bool
    ensures { result ≡ room_for_all positions.now cents }
{
    for i in 0..rows(positions) {
        if !has_room(positions, cents, i) {
            return false;
        }
    }
    true
}

// Row i gains so many cents, or loses as many as the negative of them in two's complement.
#[tactic(auto, using(crate::proofs::Laws::gain_stored))]
fn gain(positions: &mut [u8], i: usize, cents: u64)
    requires { HasRow positions.old i }
    ensures { positions.new ≡ gains positions.old i cents }
{
    let held = wire::u64_at(positions, POSITION_WIDTH * i);
    let more = held.wrapping_add(cents);
    writing::put_number(positions, POSITION_WIDTH * i, POSITION_WIDTH, more);
}

// Row `from` pays row `to`, which may be the same, so many cents.
pub fn pay(positions: &mut [u8], from: usize, to: usize, cents: u64)
    requires { (HasRow positions.old from) × (HasRow positions.old to) }
    ensures { positions.new ≡ pays positions.old (some from) (some to) cents }
{
    gain(positions, from, cents.wrapping_neg());
    gain(positions, to, cents);
}
