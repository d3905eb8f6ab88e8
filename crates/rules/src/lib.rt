// The faults of a bulk and of a message: a function for each, of the fields that it looks at and no more; that of badly formed
// identifiers is in the crate wording. Which bit shows it is said in the crate faults.
#![tactic(auto)]

ghost use Rattle.std.specs.Prelude.{◌≡◌};
ghost use Rattle.routing.specs.Lookup.{option_of};
ghost use Rattle.tally.specs.Tally.{cents_of};
ghost use Rattle.rules.specs.OfBulk.{marks_wrong, no_participant, date_wrong, date_closed, empty, number_wrong, sum_wrong};
ghost use Rattle.rules.specs.OfMessage.{receiver_badly_formed, unreachable, amount_wrong, tells_original, reason_unknown, name_unknown, returned_amount_wrong};

use tally::Cents;

// What a call asks to be judged by, besides its bytes.
#[derive(Clone, Copy)]
pub struct Terms {
    pub date: u32,
}

// The EPC limit of an amount.
pub const MOST_CENTS: u64 = 99999999999;

// The bits of a header's marks. Numbers and no enum: `masks::shows` takes any bit.
const CLRG: u16 = 0;

const EKS: u16 = 1;

const RECIPIENT: u16 = 2;

// ---- a bulk

// Whether the marks are other than CLRG and EKS and nothing else.
pub fn marks_wrong(marks: u8) -> bool
    ensures { result ≡ marks_wrong marks }
{
    let mask = u16::from(marks);
    !(masks::shows(mask, CLRG)
        & masks::shows(mask, EKS)
        & !masks::shows(mask, RECIPIENT)
        & (mask >> 3 == 0))
}

// Whether the sender's row is missing or no participant's.
pub fn no_participant(table: &[u8], row: Option<usize>) -> bool
    ensures { result ≡ no_participant table.now (option_of row) }
{
    !routing::participates(table, row)
}

// Whether a value date is another than the call's.
pub fn date_wrong(terms: Terms, date: u32) -> bool
    ensures { result ≡ date_wrong terms date }
{
    date != terms.date
}

// Whether a value date is no open day.
pub fn date_closed(date: u32) -> bool
    ensures { result ≡ date_closed date }
{
    !opendays::is_open(date)
}

// Whether a bulk holds no message.
pub fn empty(number: u64) -> bool
    ensures { result ≡ empty number }
{
    number == 0
}

// Whether the stated number of messages is another than the actual one.
pub fn number_wrong(stated: u64, number: u64) -> bool
    ensures { result ≡ number_wrong stated number }
{
    stated != number
}

// Whether the stated sum is another than the true one, which may pass 64 bits.
pub fn sum_wrong(stated: u64, sum: Cents) -> bool
    ensures { result ≡ sum_wrong stated (cents_of sum) }
{
    if sum.0 == 0 { stated != sum.1 } else { true }
}

// ---- a message

// Whether the receiver is not written as a BIC.
pub fn receiver_badly_formed(receiver: &[u8]) -> bool
    ensures { result ≡ receiver_badly_formed receiver.now }
{
    !codes::bic_formed(receiver)
}

// Whether the receiver's row is missing or not reachable.
pub fn unreachable(table: &[u8], row: Option<usize>) -> bool
    ensures { result ≡ unreachable table.now (option_of row) }
{
    !routing::reachable(table, row)
}

// Whether an amount lies outside 1 to 99,999,999,999 cents.
pub fn amount_wrong(amount: u64) -> bool
    ensures { result ≡ amount_wrong amount }
{
    !((1 <= amount) & (amount <= MOST_CENTS))
}

// Whether a payment tells something of an original.
pub fn tells_original(kind: u8, original: u64, reason: &[u8], name: &[u8]) -> bool
    ensures { result ≡ tells_original kind original reason.now name.now }
{
    (kind == sheet::PAYMENT) && ((original != 0) | !codes::blank(reason) | !codes::blank(name))
}

// Whether a return gives no reason of the list.
pub fn reason_unknown(kind: u8, reason: &[u8]) -> bool
    ensures { result ≡ reason_unknown kind reason.now }
{
    (kind == sheet::RETURN) && !codes::known_reason(reason)
}

// Whether a return names no message that may be returned.
pub fn name_unknown(kind: u8, name: &[u8]) -> bool
    ensures { result ≡ name_unknown kind name.now }
{
    (kind == sheet::RETURN) && !codes::known_name(name)
}

// Whether a return is over more than the original, or over less where no charge may be taken off. The reason is looked at only where
// it decides.
pub fn returned_amount_wrong(kind: u8, amount: u64, original: u64, reason: &[u8]) -> bool
    ensures { result ≡ returned_amount_wrong kind amount original reason.now }
{
    if kind == sheet::RETURN {
        if amount < original {
            !codes::answers_cancellation(reason)
        } else {
            original < amount
        }
    } else {
        false
    }
}
