// What is asked of the judge.
use rules::Terms;

// What a call lends to be read only: its terms, its sheet and its table, with a directory. That it is the table's on the date stays a
// clause of each function that looks rows up: as a fact of the struct, what is said of any call would be said of the right ones only.
#[derive(Clone, Copy)]
pub struct Asked<'a> {
    pub terms: Terms,
    pub sheet: &'a [u8],
    pub table: &'a [u8],
    pub directory: &'a [u8],
}
