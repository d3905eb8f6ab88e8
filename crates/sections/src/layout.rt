// The lines of a report as the crate report places them, for a report that may end early.
ghost use Rattle.std.specs.Prelude.{◌≡◌, drop};
ghost use Rattle.report.specs.Line.{sections_place, bulk_line_at, message_line_at};
ghost use Rattle.sections.specs.Layout.{count_in, later_sections};

// The count that a report or a section begins with.
pub(crate) fn count_in(s: &[u8]) -> u32
    ensures { result ≡ count_in s.now }
{
    wire::u32_at(s, 0)
}

pub(crate) fn bulk_line_at(report: &[u8], i: u32) -> &[u8]
    ensures { result.now ≡ bulk_line_at report.now i }
{
    report::bulk_line_at(report, i as usize)
}

// The place where the sections begin.
pub(crate) fn sections_place(bulks: u32) -> usize
    ensures { result ≡ sections_place bulks }
{
    report::sections_at(bulks as usize)
}

pub(crate) fn sections_from(report: &[u8], place: usize) -> &[u8]
    ensures { result.now ≡ drop place report.now }
{
    wire::text_at(report, place, report.len())
}

pub(crate) fn message_line_at(section: &[u8], i: u32) -> &[u8]
    ensures { result.now ≡ message_line_at section.now i }
{
    report::message_line_at(section, i as usize)
}

// The place after the section that begins at place `place`, no further than the end.
pub(crate) fn next_section(report: &[u8], place: usize) -> usize
    ensures { drop result report.now ≡ later_sections (drop place report.now) }
{
    let count = wire::u32_at(report, place);
    decimals::place_after(place, report::section_width(count as usize), report.len())
}
