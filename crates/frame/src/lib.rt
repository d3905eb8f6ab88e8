// The program's input: a date, then table, register and sheet, each after its length. It may be of any length; what is read of it is
// one byte more than the longest that is taken, so that a byte too many shows.
#![tactic(auto)]

ghost use Rattle.std.specs.Prelude.{◌≡◌};
ghost use Rattle.frame.specs.Frame.{fits, part_in, after_part, table_on, register_on, sheet_on, in_shape, date_in, table_in, register_in, sheet_in};
ghost use Rattle.frame.specs.Read.{ReadOf};

const DATE_WIDTH: usize = 4;

const LENGTH_WIDTH: usize = 4;

// The longest part that is taken.
pub const MOST_PART: usize = 16384;

// What is read: a date and three parts, each after its length, and one byte more.
pub const MOST_READ: usize = 49169;

// The n bytes that were read. Whatever follows them in an input that is longer, they tell whether it is in shape. The buffer and n stay two
// parameters, as `ReadOf` takes them.
pub fn read_of(buffer: &[u8; MOST_READ], n: usize) -> &[u8]
    ensures { ReadOf buffer.now n result.now }
{
    wire::text_at(buffer, 0, n)
}

// Whether a part and its length stand at the start of the input's rest, and the part isn't too long.
fn fits(rest: &[u8]) -> bool
    ensures { result ≡ fits rest.now }
{
    let length = wire::u32_at(rest, 0) as usize;
    (length <= MOST_PART) & (LENGTH_WIDTH + length <= rest.len())
}

// The part at the start of the input's rest.
fn part_in(rest: &[u8]) -> &[u8]
    ensures { result.now ≡ part_in rest.now }
{
    wire::text_at(rest, LENGTH_WIDTH, wire::u32_at(rest, 0) as usize)
}

// What follows that part.
fn after_part(rest: &[u8]) -> &[u8]
    ensures { result.now ≡ after_part rest.now }
{
    wire::text_at(
        rest,
        LENGTH_WIDTH + wire::u32_at(rest, 0) as usize,
        rest.len(),
    )
}

// The input from each part on.
fn table_on(input: &[u8]) -> &[u8]
    ensures { result.now ≡ table_on input.now }
{
    wire::text_at(input, DATE_WIDTH, input.len())
}

fn register_on(input: &[u8]) -> &[u8]
    ensures { result.now ≡ register_on input.now }
{
    after_part(table_on(input))
}

fn sheet_on(input: &[u8]) -> &[u8]
    ensures { result.now ≡ sheet_on input.now }
{
    after_part(register_on(input))
}

// Whether the input has three parts, each no longer than it may be, and nothing follows them.
pub fn in_shape(input: &[u8]) -> bool
    ensures { result ≡ in_shape input.now }
{
    let table = table_on(input);
    let register = register_on(input);
    let sheet = sheet_on(input);
    fits(table) & fits(register) & fits(sheet) & (after_part(sheet).len() == 0)
}

pub fn date_in(input: &[u8]) -> u32
    ensures { result ≡ date_in input.now }
{
    wire::u32_at(input, 0)
}

pub fn table_in(input: &[u8]) -> &[u8]
    ensures { result.now ≡ table_in input.now }
{
    part_in(table_on(input))
}

pub fn register_in(input: &[u8]) -> &[u8]
    ensures { result.now ≡ register_in input.now }
{
    part_in(register_on(input))
}

pub fn sheet_in(input: &[u8]) -> &[u8]
    ensures { result.now ≡ sheet_in input.now }
{
    part_in(sheet_on(input))
}
