// What the program prints: `respond` takes the bytes that it reads, and writes those that it prints into a lent buffer.
#![tactic(auto)]

mod response;

ghost use Rattle.printing.specs.Response.{response};
ghost use Rattle.printing.specs.Writing.{Answered, AnsweredAll};

use frame::MOST_READ;

// No response is longer.
pub const MOST_OUTPUT: usize = 73728;

// Printed for input of another shape.
const ANOTHER_SHAPE: u32 = 99;

// Answers any input. What has no room in the buffer is left out, and the answer is how many bytes were written.
pub fn respond(out: &mut [u8], input: &[u8]) -> usize
    ensures { Answered out.old out.new result (response input.now) }
{
    if !frame::in_shape(input) {
        return figures::put_refusal(out, 0, ANOTHER_SHAPE);
    }
    response::put_judgement(
        out,
        frame::date_in(input),
        frame::sheet_in(input),
        frame::table_in(input),
        frame::register_in(input),
    )
}

// Answers an input of any length, of which the first n bytes were read: all of them, or as many as the buffer takes. The answer is
// whole. The buffer and n stay two parameters, as `AnsweredAll` takes them: it is the program's own, and of a fixed size.
pub fn respond_all(out: &mut [u8; MOST_OUTPUT], buffer: &[u8; MOST_READ], n: usize) -> usize
    ensures { AnsweredAll buffer.now n out.old out.new result }
{
    respond(out, frame::read_of(buffer, n))
}
