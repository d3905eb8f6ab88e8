// The paths to the needed elements, as roles: what a child of a name plays in an element of a role. Proved: which role that is, and whether
// an element lacks something needed, by the table of the definitions.
#![tactic(auto)]

mod children;

ghost use Rattle.std.specs.Prelude.{◌≡◌, get_or, eqb};
ghost use Rattle.paths.specs.Roles.{payments_header, one_payment, one_return, is_amount, is_message, counts_as};
ghost use Rattle.paths.specs.Table.{child_role, root_role, lacks};

// Roles are numbers: `child_role` and `lacking` answer for any number, and an enum would ask more of their callers.
pub const OTHER: usize = 0;

pub const STRANGER: usize = 1;

pub const DOCUMENT: usize = 2;

pub const PAYMENTS: usize = 3;

pub const RETURNS: usize = 4;

pub const PAYMENTS_HEADER: usize = 5;

pub const RETURNS_HEADER: usize = 6;

pub const SETTLEMENT: usize = 7;

pub const CLEARING: usize = 8;

pub const SENDER_AGENT: usize = 9;

pub const SENDER_INSTITUTION: usize = 10;

pub const ONE_PAYMENT: usize = 11;

pub const ONE_RETURN: usize = 12;

pub const PAYMENT_IDENTIFICATION: usize = 13;

pub const RECEIVER_AGENT: usize = 14;

pub const RECEIVER_INSTITUTION: usize = 15;

pub const ORIGINAL_GROUP: usize = 16;

pub const REASON_INFORMATION: usize = 17;

pub const REASON_GROUP: usize = 18;

pub const ORIGINAL_REFERENCE: usize = 19;

pub const RECIPIENT: usize = 20;

pub const BULK_IDENTIFIER: usize = 21;

pub const STATED_NUMBER: usize = 22;

pub const STATED_SUM: usize = 23;

pub const VALUE_DATE: usize = 24;

pub const METHOD: usize = 25;

pub const SYSTEM: usize = 26;

pub const SENDER: usize = 27;

pub const IDENTIFIER: usize = 28;

pub const RECEIVER: usize = 29;

pub const AMOUNT: usize = 30;

pub const ORIGINAL_AMOUNT: usize = 31;

pub const REASON: usize = 32;

pub const ORIGINAL_NAME: usize = 33;

pub const ROLES: usize = 34;

pub fn root_role(name: &[u8]) -> usize
    ensures { result ≡ root_role name.now }
{
    if texts::same(name, b"Document") {
        DOCUMENT
    } else {
        STRANGER
    }
}

// The role of a child of a name, in an element of a role.
#[tactic(auto, unfolding(crate::specs::Table::child_role, crate::specs::Table::among))]
pub fn child_role(parent: usize, name: &[u8]) -> usize
    ensures { result ≡ child_role parent name.now }
{
    match parent {
        DOCUMENT => children::in_document(name),
        PAYMENTS => children::in_payments(name),
        RETURNS => children::in_returns(name),
        PAYMENTS_HEADER => children::in_payments_header(name),
        RETURNS_HEADER => children::in_returns_header(name),
        SETTLEMENT => children::in_settlement(name),
        CLEARING => children::only(name, b"Prtry", SYSTEM),
        SENDER_AGENT => children::in_agent(name, SENDER_INSTITUTION),
        SENDER_INSTITUTION => children::only(name, b"BICFI", SENDER),
        ONE_PAYMENT => children::in_one_payment(name),
        ONE_RETURN => children::in_one_return(name),
        PAYMENT_IDENTIFICATION => children::only(name, b"TxId", IDENTIFIER),
        RECEIVER_AGENT => children::in_agent(name, RECEIVER_INSTITUTION),
        RECEIVER_INSTITUTION => children::only(name, b"BICFI", RECEIVER),
        ORIGINAL_GROUP => children::in_original_group(name),
        REASON_INFORMATION => children::only(name, b"Rsn", REASON_GROUP),
        REASON_GROUP => children::only(name, b"Cd", REASON),
        ORIGINAL_REFERENCE => children::in_original_reference(name),
        _ => OTHER,
    }
}

pub fn is_message(role: usize) -> bool
    ensures { result ≡ is_message role }
{
    (role == ONE_PAYMENT) | (role == ONE_RETURN)
}

pub fn is_amount(role: usize) -> bool
    ensures { result ≡ is_amount role }
{
    (role == STATED_SUM) | (role == AMOUNT) | (role == ORIGINAL_AMOUNT)
}

// The role that an element is counted as.
pub fn counts_as(role: usize) -> usize
    ensures { result ≡ counts_as role }
{
    if role == RETURNS { PAYMENTS } else { role }
}

fn once(counts: &[u8], role: usize) -> bool
    ensures { result ≡ eqb (get_or counts.now role 0) 1 }
{
    role < counts.len() && counts[role] == 1
}

// Whether a bulk's header lacks something, by how often each role was counted among its children. No list of roles and `all`: it is no
// plainer than the tests themselves.
#[tactic(auto, unfolding(crate::specs::Table::lacks, crate::specs::Table::all_met))]
fn header_lacks(counts: &[u8]) -> bool
    ensures { result ≡ lacks payments_header (λ k. get_or counts.now k 0) }
{
    !(once(counts, BULK_IDENTIFIER)
        & once(counts, STATED_NUMBER)
        & once(counts, STATED_SUM)
        & once(counts, VALUE_DATE)
        & once(counts, SETTLEMENT)
        & once(counts, SENDER_AGENT))
}

#[tactic(auto, unfolding(crate::specs::Table::lacks, crate::specs::Table::all_met))]
fn payment_lacks(counts: &[u8]) -> bool
    ensures { result ≡ lacks one_payment (λ k. get_or counts.now k 0) }
{
    !(once(counts, PAYMENT_IDENTIFICATION) & once(counts, AMOUNT) & once(counts, RECEIVER_AGENT))
}

#[tactic(auto, unfolding(crate::specs::Table::lacks, crate::specs::Table::all_met))]
fn return_lacks(counts: &[u8]) -> bool
    ensures { result ≡ lacks one_return (λ k. get_or counts.now k 0) }
{
    !(once(counts, IDENTIFIER)
        & once(counts, ORIGINAL_GROUP)
        & once(counts, ORIGINAL_AMOUNT)
        & once(counts, AMOUNT)
        & once(counts, REASON_INFORMATION)
        & once(counts, ORIGINAL_REFERENCE))
}

// The same for an element of any role. What no row has as its parent lacks nothing, but a stranger lacks the document.
#[tactic(auto, unfolding(crate::specs::Table::lacks, crate::specs::Table::all_met))]
pub fn lacking(role: usize, counts: &[u8]) -> bool
    ensures { result ≡ lacks role (λ k. get_or counts.now k 0) }
{
    match role {
        STRANGER => true,
        DOCUMENT => !once(counts, PAYMENTS),
        PAYMENTS => !once(counts, PAYMENTS_HEADER),
        RETURNS => !once(counts, RETURNS_HEADER),
        PAYMENTS_HEADER => header_lacks(counts),
        RETURNS_HEADER => header_lacks(counts),
        SETTLEMENT => !(once(counts, METHOD) & once(counts, CLEARING)),
        CLEARING => !once(counts, SYSTEM),
        SENDER_AGENT => !once(counts, SENDER_INSTITUTION),
        SENDER_INSTITUTION => !once(counts, SENDER),
        ONE_PAYMENT => payment_lacks(counts),
        ONE_RETURN => return_lacks(counts),
        PAYMENT_IDENTIFICATION => !once(counts, IDENTIFIER),
        RECEIVER_AGENT => !once(counts, RECEIVER_INSTITUTION),
        RECEIVER_INSTITUTION => !once(counts, RECEIVER),
        ORIGINAL_GROUP => !once(counts, ORIGINAL_NAME),
        REASON_INFORMATION => !once(counts, REASON_GROUP),
        REASON_GROUP => !once(counts, REASON),
        ORIGINAL_REFERENCE => !once(counts, RECEIVER_AGENT),
        _ => false,
    }
}
