// The routing table: its form, the row of a BIC on a date, and whether that row is reachable. It knows nothing of files, registers
// or reports, and writes to nothing: it can be had without the judge, and the contract of `lookup` is all that one needs.
#![tactic(auto)]

ghost use Rattle.std.specs.Prelude.{◌≡◌, ◌+◌, ◌≤◌, length, take};
ghost use Rattle.std.specs.Fn.{FnReturnsAt};
ghost use Rattle.wire.specs.Field.{number_at};
ghost use Rattle.routing.specs.Table.{date_width, row_at, row_width, bic_at, rows, known_kind, kind_at, kinds_known};
ghost use Rattle.routing.specs.Promise.{FormTold, RowTold, RoutedBy, HeadTold, AnswerTold};
ghost use Rattle.routing.specs.Lookup.{lookup_number, option_of, counts, bears, row_of, head_office_row, is_head_office, route, reachable, participates, lookup};

use wire::COUNT_WIDTH;

const INSTITUTION_WIDTH: usize = 8;

const BRANCH_WIDTH: usize = 3;

pub const BIC_WIDTH: usize = INSTITUTION_WIDTH + BRANCH_WIDTH;

const DATE_WIDTH: usize = 4;

const FIRST_DATE_PLACE: usize = BIC_WIDTH;

const LAST_DATE_PLACE: usize = FIRST_DATE_PLACE + DATE_WIDTH;

const KIND_PLACE: usize = LAST_DATE_PLACE + DATE_WIDTH;

pub const ROW_WIDTH: usize = KIND_PLACE + 1;

const MOST_ROWS: usize = 8192;

// The kinds of a row. Numbers and no enum: a table may state any byte, and `known_kind` is what tells.
const NOT_REACHABLE: u8 = 0;

const PARTICIPANT: u8 = 5;

const HOLDER: u8 = 6;

const THROUGH_STEP2: u8 = 20;

// Why a question is turned away.
#[derive(Debug, Clone, Copy, PartialEq, Eq)]
pub enum Refusal {
    Date = 1,
    Table = 2,
    Bic = 18,
}

// The BIC of a head office: so many characters of the text. Of a BIC shorter than an institution's it is shorter.
// An array with its length: there is no heap, and `HeadTold` names both.
#[derive(Clone, Copy)]
pub struct HeadOffice {
    pub text: [u8; BIC_WIDTH],
    pub length: usize,
}

impl HeadOffice {
    pub fn as_slice(&self) -> &[u8]
        requires { self.now.length ≤ length self.now.text }
        ensures { result.now ≡ take self.now.length self.now.text }
    {
        &self.text[..self.length]
    }
}

// The row that a question is answered with.
#[derive(Debug, Clone, Copy, PartialEq, Eq)]
pub struct Row {
    pub place: usize,
    pub reachable: bool,
}

// The whole rows that the table holds.
pub fn rows(table: &[u8]) -> usize
    ensures { result ≡ rows table.now }
{
    (table.len() - wire::least(COUNT_WIDTH, table.len())) / ROW_WIDTH
}

fn known_kind(kind: u8) -> bool
    ensures { result ≡ known_kind kind }
{
    (kind == NOT_REACHABLE) | (kind == PARTICIPANT) | (kind == HOLDER) | (kind == THROUGH_STEP2)
}

// 0 where the table has no such row; of a row that is cut off, what is left of it.
fn kind_at(table: &[u8], i: usize) -> u8
    ensures { result ≡ kind_at table.now i }
{
    if rows(table) < i {
        return 0;
    }
    wire::u8_at(table, COUNT_WIDTH + ROW_WIDTH * i + KIND_PLACE)
}

// Whether the table has the form that its layout asks; if not, that is refusal 2.
pub fn well_formed(table: &[u8]) -> bool
    ensures { FormTold table.now result }
{
    let stated = wire::u32_at(table, 0) as usize;
    (COUNT_WIDTH <= table.len())
        & (table.len() == COUNT_WIDTH + ROW_WIDTH * stated)
        & (stated <= MOST_ROWS)
        & kinds_known(table)
}

fn kinds_known(table: &[u8]) -> bool
    ensures { result ≡ kinds_known table.now }
{
    for i in 0..rows(table) {
        if !known_kind(kind_at(table, i)) {
            return false;
        }
    }
    true
}

// A date that is known to lie in the table: nothing is clipped, so the search pays for a date only where a row bears the BIC.
fn date_at(table: &[u8], at: usize) -> u32
    requires { at + date_width ≤ length table.now }
    ensures { result ≡ number_at table.now at date_width }
{
    wire::four_at(table, at) as u32
}

// Whether row i counts on the date. A row is its number beside the table: a struct of both would be made for each row asked, no plainer.
pub fn counts(date: u32, table: &[u8], i: usize) -> bool
    requires { row_at i + row_width ≤ length table.now }
    ensures { result ≡ counts date table.now i }
{
    (date_at(table, COUNT_WIDTH + ROW_WIDTH * i + FIRST_DATE_PLACE) <= date)
        & (date <= date_at(table, COUNT_WIDTH + ROW_WIDTH * i + LAST_DATE_PLACE))
}

pub fn bic_at(table: &[u8], i: usize) -> &[u8]
    requires { row_at i + row_width ≤ length table.now }
    ensures { result.now ≡ bic_at table.now i }
{
    let at = COUNT_WIDTH + ROW_WIDTH * i;
    let end = at + BIC_WIDTH;
    &table[at..end]
}

fn bears(date: u32, table: &[u8], bic: &[u8], i: usize) -> bool
    requires { row_at i + row_width ≤ length table.now }
    ensures { result ≡ bears date table.now bic.now i }
{
    texts::same(bic_at(table, i), bic) && counts(date, table, i)
}

// The first row that counts on the date and bears the BIC. The three stay parameters, as `lookup` takes them.
pub fn row_of(date: u32, table: &[u8], bic: &[u8]) -> Option<usize>
    ensures { RowTold table.now (option_of result) (row_of date table.now bic.now) }
{
    for i in 0..rows(table) {
        if bears(date, table, bic, i) {
            return Some(i);
        }
    }
    None
}

// The BIC of the head office: the first eight characters followed by XXX.
pub fn head_office(bic: &[u8]) -> HeadOffice
    ensures { HeadTold bic.now result }
{
    let mut text = [b'X'; BIC_WIDTH];
    let front = wire::text_at(bic, 0, INSTITUTION_WIDTH);
    let length = front.len() + BRANCH_WIDTH;
    writing::put_text(&mut text, 0, front);
    HeadOffice { text, length }
}

pub fn is_head_office(bic: &[u8]) -> bool
    ensures { result ≡ is_head_office bic.now }
{
    texts::same(wire::text_at(bic, INSTITUTION_WIDTH, BRANCH_WIDTH), b"XXX")
}

// The same for the head office.
pub fn head_office_row(date: u32, table: &[u8], bic: &[u8]) -> Option<usize>
    ensures { RowTold table.now (option_of result) (head_office_row date table.now bic.now) }
{
    let head = head_office(bic);
    row_of(date, table, head.as_slice())
}

// The row of a BIC, its own, else that of its head office, by any way of finding the row of a text.
pub fn route_by<F: Fn(&[u8]) -> Option<usize>>(bic: &[u8], row_of: F) -> Option<usize>
    requires { F.IsAlwaysCallable row_of }
    ensures { RoutedBy (FnReturnsAt F.Fn row_of) bic.now result }
{
    let own = row_of(bic);
    if own.is_some() | is_head_office(bic) {
        return own;
    }
    let head = head_office(bic);
    row_of(head.as_slice())
}

// The row of a BIC: its own, else that of its head office.
pub fn route(date: u32, table: &[u8], bic: &[u8]) -> Option<usize>
    ensures { RowTold table.now (option_of result) (route date table.now bic.now) }
{
    route_by(bic, |text| row_of(date, table, text))
}

// Whether a row was found and its kind doesn't say that it is not reachable.
pub fn reachable(table: &[u8], row: Option<usize>) -> bool
    ensures { result ≡ reachable table.now (option_of row) }
{
    row.is_some_and(|i| kind_at(table, i) != NOT_REACHABLE)
}

// Whether a row was found and is a participant's.
pub fn participates(table: &[u8], row: Option<usize>) -> bool
    ensures { result ≡ participates table.now (option_of row) }
{
    row.is_some_and(|i| kind_at(table, i) == PARTICIPANT)
}

// The whole question, for a caller that has checked nothing.
pub fn lookup(date: u32, table: &[u8], bic: &[u8]) -> Result<Option<Row>, Refusal>
    ensures { AnswerTold table.now result (lookup date table.now bic.now) }
{
    if !calendar::is_date(date) {
        return Err(Refusal::Date);
    }
    if !well_formed(table) {
        return Err(Refusal::Table);
    }
    if bic.len() != BIC_WIDTH {
        return Err(Refusal::Bic);
    }
    let found = route(date, table, bic);
    let reachable = reachable(table, found);
    Ok(found.map(|place| Row { place, reachable }))
}

// The number of a refusal.
pub fn number_of(refusal: Refusal) -> u32
    ensures { result ≡ lookup_number refusal }
{
    refusal as u32
}
