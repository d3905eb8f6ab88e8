// Whether a file is turned away. The conditions are asked one after the other, in the order of the refusals, and the first that holds
// is the answer. Nothing is written.
#![tactic(auto)]

ghost use Rattle.std.specs.Prelude.{◌≡◌, true, false, MatchResult};
ghost use Rattle.refusing.specs.Refusals.{refusal_number};
ghost use Rattle.refusing.specs.Checking.{asks, until, from, first_of, Measured, Told};
ghost use Rattle.refusing.specs.declared.Refusal.TheVariants.{Date, Sheet, Size};

use rules::Terms;
use sheet::Contents;

const MOST_BULKS: usize = 999;

const MOST_MESSAGES: usize = 15000;

// Why a file is turned away, in the order in which the reasons are looked for, each with its number.
#[derive(Debug, Clone, Copy, PartialEq, Eq)]
pub enum Refusal {
    Date = 1,
    Table = 2,
    Positions = 3,
    Register = 4,
    IndexLength = 12,
    IndexContents = 13,
    Sheet = 5,
    Size = 6,
    Kind = 7,
    Order = 8,
    Room = 9,
    Limit = 10,
    Space = 11,
}

// What a call lends to be looked at, an index where there is one.
#[derive(Clone, Copy)]
pub struct Lent<'a> {
    pub terms: Terms,
    pub sheet: &'a [u8],
    pub table: &'a [u8],
    pub register: &'a [u8],
    pub positions: &'a [u8],
    pub report: &'a [u8],
    pub index: Option<&'a [u8]>,
}

// The refusal, where its condition holds.
fn refuse_if(held: bool, refusal: Refusal) -> Result<(), Refusal>
    ensures { MatchResult result (λ _. held ≡ false) (λ r. (held ≡ true) × (r ≡ refusal)) }
{
    if held { Err(refusal) } else { Ok(()) }
}

// What is asked before the sheet is looked at.
#[tactic(auto, unfolding(crate::specs::Refusals::holds_given))]
fn beside_the_sheet(lent: Lent) -> Result<(), Refusal>
    ensures { result ≡ first_of (asks lent.entry) (until Sheet) }
{
    let Lent {
        terms,
        table,
        register,
        positions,
        ..
    } = lent;
    refuse_if(!calendar::is_date(terms.date), Refusal::Date)?;
    refuse_if(!routing::well_formed(table), Refusal::Table)?;
    // A position for each row.
    let rows = routing::rows(table);
    refuse_if(!positions::fit(positions, rows), Refusal::Positions)?;
    refuse_if(!register::well_formed(register), Refusal::Register)?;
    // An index, where one is lent, is as long as the register asks, and the register's own.
    if let Some(index) = lent.index {
        let length = index::length_for(register);
        refuse_if(index.len() != length, Refusal::IndexLength)?;
        let own = index::is_built(register, index);
        refuse_if(!own, Refusal::IndexContents)?;
    }
    Ok(())
}

// What is asked of a whole sheet, and of the space that it needs.
#[tactic(auto, unfolding(crate::specs::Refusals::holds_given))]
fn of_the_sheet(lent: Lent, contents: Contents) -> Result<(), Refusal>
    requires { Measured lent.sheet.now contents }
    ensures { result ≡ first_of (asks lent.entry) (from Size) }
{
    let Lent {
        sheet,
        register,
        positions,
        report,
        ..
    } = lent;
    let Contents { bulks, messages } = contents;
    let many = MOST_BULKS < bulks || MOST_MESSAGES < messages;
    refuse_if(many, Refusal::Size)?;
    refuse_if(!sheet::kinds_known(sheet, bulks), Refusal::Kind)?;
    refuse_if(sheet::kinds_mixed(sheet, bulks), Refusal::Order)?;
    // A free place in the register for every bulk and message.
    refuse_if(register::free(register) < bulks + messages, Refusal::Room)?;
    // Positions that every message could move by the most.
    let most = messages as u64 * rules::MOST_CENTS;
    refuse_if(!positions::room_for_all(positions, most), Refusal::Limit)?;
    let space = report::space_for(bulks, messages);
    refuse_if(report.len() < space, Refusal::Space)
}

// All conditions, in their order: a refusal, or what a file that passes holds.
pub fn check(lent: Lent) -> Result<Contents, Refusal>
    ensures { Told Date (asks lent.entry) lent.entry.sheet.now result }
{
    beside_the_sheet(lent)?;
    let contents = sheet::measure(lent.sheet).ok_or(Refusal::Sheet)?;
    of_the_sheet(lent, contents)?;
    Ok(contents)
}

// The number of a refusal.
pub fn number_of(refusal: Refusal) -> u32
    ensures { result ≡ refusal_number refusal }
{
    refusal as u32
}
