// All lines of a report, of the positions and of the register. Nothing here asks that a report is whole: past its end stands nothing,
// and that is printed.
#![tactic(auto)]

mod layout;

ghost use Rattle.decimals.specs.Printed.{Printed};
ghost use Rattle.sections.specs.Sections.{section_text, report_text, positions_text, judged_text};

// The lines of one bulk's messages.
fn put_section(out: &mut [u8], at: usize, section: &[u8]) -> usize
    ensures { Printed out.old out.new at result (section_text section.now) }
{
    let count = layout::count_in(section);
    let mut next = wire::least(at, out.len());
    for i in 0..count {
        next = lines::put_message(out, next, layout::message_line_at(section, i));
    }
    next
}

// The line of each bulk, followed by those of its messages.
fn put_report(out: &mut [u8], at: usize, report: &[u8]) -> usize
    ensures { Printed out.old out.new at result (report_text report.now) }
{
    let bulks = layout::count_in(report);
    let mut next = wire::least(at, out.len());
    let mut place = layout::sections_place(bulks);
    for i in 0..bulks {
        let told = lines::put_bulk(out, next, layout::bulk_line_at(report, i));
        next = put_section(out, told, layout::sections_from(report, place));
        place = layout::next_section(report, place);
    }
    next
}

// The position of each row that has one.
fn put_positions(out: &mut [u8], at: usize, positions: &[u8]) -> usize
    ensures { Printed out.old out.new at result (positions_text positions.now) }
{
    let rows = positions::rows(positions);
    let mut next = wire::least(at, out.len());
    for i in 0..rows {
        next = figures::put_position(out, next, i, positions::position_at(positions, i));
    }
    next
}

// What is printed of a file that was judged.
pub fn put_judged(
    out: &mut [u8],
    at: usize,
    register: &[u8],
    positions: &[u8],
    report: &[u8],
) -> usize
    ensures { Printed out.old out.new at result (judged_text register.now positions.now report.now) }
{
    let reported = put_report(out, at, report);
    let placed = put_positions(out, reported, positions);
    figures::put_used(out, placed, register::used(register))
}
