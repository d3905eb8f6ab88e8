// The rows of a routing table that count on a date, found by their BIC without a walk: slots that name the first such row of each BIC.
// A judgement makes them once, in an array of its own, and asks them for the row of each sender and receiver.
#![tactic(auto)]

ghost use Rattle.std.specs.Prelude.{◌≡◌, ◌+◌};
ghost use Rattle.routing.specs.Lookup.{option_of, row_of, head_office_row, route};
ghost use Rattle.routing.specs.Promise.{RowTold};
ghost use Rattle.directory.specs.Directory.{row_layout, directory_to, directory_of};
ghost use Rattle.directory.specs.Ready.{Unmade, Begun, Made};

use slots::Layout;

// A prime: by a power of two, keys to base 257 that differ in few characters would crowd. As many as leave a judgement, this array and all
// else, below 64 kilobytes of stack.
const SLOTS: usize = 14983;

pub const LENGTH: usize = slots::SLOT_WIDTH * SLOTS;

fn row_layout() -> Layout
    ensures { result ≡ row_layout }
{
    Layout {
        first: wire::COUNT_WIDTH as u32,
        stride: routing::ROW_WIDTH as u32,
        width: routing::BIC_WIDTH as u32,
    }
}

// Adds row i, if it counts on the date, to the directory of the rows before it.
fn add_row(date: u32, table: &[u8], directory: &mut [u8], i: usize)
    requires { Begun date table.now directory.old i }
    ensures { directory.new ≡ directory_to date table.now (i + 1) }
{
    if routing::counts(date, table, i) {
        let k = i as u32;
        let bic = routing::bic_at(table, i);
        let ended = slots::search(row_layout(), table, k, bic, directory);
        slots::add(directory, ended, k);
    }
}

// Makes the directory of a table in empty slots.
pub fn make(date: u32, table: &[u8], directory: &mut [u8])
    requires { Unmade table.now directory.old }
    ensures { directory.new ≡ directory_of date table.now }
{
    let n = routing::rows(table);
    for i in 0..n {
        add_row(date, table, directory, i);
    }
}

// The row of a BIC on the date of the directory: the first that counts. Table and slots are two parameters, as `make` needs them: it
// reads the one and writes the other, an array of the caller's.
pub fn row_of(date: u32, table: &[u8], directory: &[u8], bic: &[u8]) -> Option<usize>
    requires { Made date table.now directory.now }
    ensures { RowTold table.now (option_of result) (row_of date table.now bic.now) }
{
    let n = routing::rows(table) as u32;
    let ended = slots::search(row_layout(), table, n, bic, directory);
    let name = ended.name;
    if slots::names(n, name) {
        Some(name as usize - 1)
    } else {
        None
    }
}

// The same for the head office.
pub fn head_office_row(date: u32, table: &[u8], directory: &[u8], bic: &[u8]) -> Option<usize>
    requires { Made date table.now directory.now }
    ensures { RowTold table.now (option_of result) (head_office_row date table.now bic.now) }
{
    let head = routing::head_office(bic);
    row_of(date, table, directory, head.as_slice())
}

// The row of a BIC: its own, else that of its head office.
pub fn route(date: u32, table: &[u8], directory: &[u8], bic: &[u8]) -> Option<usize>
    requires { Made date table.now directory.now }
    ensures { RowTold table.now (option_of result) (route date table.now bic.now) }
{
    routing::route_by(bic, |text| row_of(date, table, directory, text))
}
