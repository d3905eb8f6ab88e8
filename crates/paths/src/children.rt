// What the children of each parent play, by their names. Proved: as the table of the definitions has it.
#![tactic(auto, unfolding(crate::specs::Table::child_role, crate::specs::Table::among))]

ghost use Rattle.std.specs.Prelude.{◌≡◌, cond};
ghost use Rattle.wire.specs.Field.{text, same};
ghost use Rattle.paths.specs.Roles.{other, document, payments, returns, payments_header, returns_header, settlement, one_payment, one_return, original_group, original_reference};
ghost use Rattle.paths.specs.Table.{header_role, child_role};

use crate::{
    AMOUNT, BULK_IDENTIFIER, CLEARING, IDENTIFIER, METHOD, ONE_PAYMENT, ONE_RETURN,
    ORIGINAL_AMOUNT, ORIGINAL_GROUP, ORIGINAL_NAME, ORIGINAL_REFERENCE, OTHER,
    PAYMENT_IDENTIFICATION, PAYMENTS, PAYMENTS_HEADER, REASON_INFORMATION, RECEIVER_AGENT,
    RECIPIENT, RETURNS, RETURNS_HEADER, SENDER_AGENT, SETTLEMENT, STATED_NUMBER, STATED_SUM,
    VALUE_DATE,
};

// The role of a child where one name alone is asked for.
pub(crate) fn only(name: &[u8], asked: &[u8], role: usize) -> usize
    ensures { result ≡ cond (same name.now asked.now) role other }
{
    if texts::same(name, asked) {
        role
    } else {
        OTHER
    }
}

// The role of a child where two names are asked for, the commoner one first.
fn either(name: &[u8], first: &[u8], role: usize, second: &[u8], rarer: usize) -> usize
    ensures { result ≡ cond (same name.now first.now) role (cond (same name.now second.now) rarer other) }
{
    if texts::same(name, first) {
        role
    } else {
        only(name, second, rarer)
    }
}

// The roles of the children of one parent each. These names stay one test after the other: in a `match` of the names the proof does not
// close, with a goal for each byte of each.
pub(crate) fn in_document(name: &[u8]) -> usize
    ensures { result ≡ child_role document name.now }
{
    either(name, b"FIToFICstmrCdtTrf", PAYMENTS, b"PmtRtr", RETURNS)
}

pub(crate) fn in_payments(name: &[u8]) -> usize
    ensures { result ≡ child_role payments name.now }
{
    either(
        name,
        b"CdtTrfTxInf",
        ONE_PAYMENT,
        b"GrpHdr",
        PAYMENTS_HEADER,
    )
}

pub(crate) fn in_returns(name: &[u8]) -> usize
    ensures { result ≡ child_role returns name.now }
{
    either(name, b"TxInf", ONE_RETURN, b"GrpHdr", RETURNS_HEADER)
}

// In a header of either kind of bulk: they differ in what they call their sum.
fn in_header(name: &[u8], sum: &[u8]) -> usize
    ensures { result ≡ header_role sum.now name.now }
{
    if texts::same(name, b"MsgId") {
        return BULK_IDENTIFIER;
    }
    if texts::same(name, b"NbOfTxS") {
        return STATED_NUMBER;
    }
    if texts::same(name, b"NbOfTxs") {
        return STATED_NUMBER;
    }
    if texts::same(name, sum) {
        return STATED_SUM;
    }
    if texts::same(name, b"IntrBkSttlmDt") {
        return VALUE_DATE;
    }
    if texts::same(name, b"SttlmInf") {
        return SETTLEMENT;
    }
    if texts::same(name, b"InstgAgt") {
        return SENDER_AGENT;
    }
    only(name, b"InstdAgt", RECIPIENT)
}

pub(crate) fn in_payments_header(name: &[u8]) -> usize
    ensures { result ≡ child_role payments_header name.now }
{
    in_header(name, b"TtlIntrBkSttlmAmt")
}

pub(crate) fn in_returns_header(name: &[u8]) -> usize
    ensures { result ≡ child_role returns_header name.now }
{
    in_header(name, b"TtlRtrdIntrBkSttlmAmt")
}

pub(crate) fn in_settlement(name: &[u8]) -> usize
    ensures { result ≡ child_role settlement name.now }
{
    either(name, b"SttlmMtd", METHOD, b"ClrSys", CLEARING)
}

pub(crate) fn in_one_payment(name: &[u8]) -> usize
    ensures { result ≡ child_role one_payment name.now }
{
    if texts::same(name, b"PmtId") {
        return PAYMENT_IDENTIFICATION;
    }
    if texts::same(name, b"IntrBkSttlmAmt") {
        return AMOUNT;
    }
    // where a payment's receiver stands (`receiver_path`)
    only(name, b"CdtrAgt", RECEIVER_AGENT)
}

pub(crate) fn in_one_return(name: &[u8]) -> usize
    ensures { result ≡ child_role one_return name.now }
{
    if texts::same(name, b"RtrId") {
        return IDENTIFIER;
    }
    if texts::same(name, b"OrgnlGrpInf") {
        return ORIGINAL_GROUP;
    }
    if texts::same(name, b"OrgnlIntrBkSttlmAmt") {
        return ORIGINAL_AMOUNT;
    }
    if texts::same(name, b"RtrdIntrBkSttlmAmt") {
        return AMOUNT;
    }
    if texts::same(name, b"RtrRsnInf") {
        return REASON_INFORMATION;
    }
    only(name, b"OrgnlTxRef", ORIGINAL_REFERENCE)
}

// Where a return's receiver stands (`return_receiver_path`).
pub(crate) fn in_original_reference(name: &[u8]) -> usize
    ensures { result ≡ child_role original_reference name.now }
{
    only(name, b"CdtrAgt", RECEIVER_AGENT)
}

// One name alone too. The compiler builds a text of more than eight bytes at the start of the function that it stands in, so these do not
// stand in `child_role`, which is asked for every child.
pub(crate) fn in_agent(name: &[u8], institution: usize) -> usize
    ensures { result ≡ cond (same name.now (text "FinInstnId")) institution other }
{
    only(name, b"FinInstnId", institution)
}

pub(crate) fn in_original_group(name: &[u8]) -> usize
    ensures { result ≡ child_role original_group name.now }
{
    only(name, b"OrgnlMsgNmId", ORIGINAL_NAME)
}
