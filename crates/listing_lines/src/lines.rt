// The lines of a listing, each as its words and numbers.
ghost use Rattle.std.specs.Prelude.{◌≡◌, ◌≤◌, length};
ghost use Rattle.certificate.specs.Layout.{max_entries};
ghost use Rattle.listing_text.specs.Lines.{counts_line, entry_line, accepted_line, refused_line};
ghost use Rattle.listing_lines.specs.Fields.{line_of};

use crate::line::Field;
use certificate::Report;
use entry_records::entries::Entries;

pub fn counts_line(s: &[u8]) -> [Field; 6]
    ensures { (line_of result ≡ counts_line s.now) × (length (line_of result) ≤ 126) }
{
    [
        Field(b"links ", header_record::links_of(s) as u32),
        Field(b" turns ", header_record::turns_of(s) as u32),
        Field(b" signals ", header_record::signals_of(s) as u32),
        Field(b" modes ", header_record::modes_of(s) as u32),
        Field(b" arrivals ", header_record::boxes_of(s) as u32),
        Field(b" entries ", header_record::entries_of(s) as u32),
    ]
}

pub fn entry_line(entries: &Entries<'_>, e: usize) -> [Field; 5]
    requires { e ≤ max_entries }
    ensures { (line_of result ≡ entry_line entries.now.bytes.now e) × (length (line_of result) ≤ 55) }
{
    let entry = entries.bench_entry(e);
    let shown = entry.shown;
    [
        Field(b"", shown.cell as u32),
        Field(b" ", shown.mode as u32),
        Field(b" ", shown.signal as u32),
        Field(b" ", shown.next_mode as u32),
        Field(b" ", entry.rank as u32),
    ]
}

pub fn accepted_line(report: Report, overflows: u32) -> [Field; 2]
    ensures { (line_of result ≡ accepted_line report overflows) × (length (line_of result) ≤ 65) }
{
    [Field(b"accepted ", report.count), Field(b" ", overflows)]
}

pub fn refused_line(report: Report) -> [Field; 4]
    ensures { (line_of result ≡ refused_line report) × (length (line_of result) ≤ 65) }
{
    [
        Field(b"refused ", u32::from(report.number)),
        Field(b" ", report.a),
        Field(b" ", report.b),
        Field(b" ", report.count),
    ]
}
