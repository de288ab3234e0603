// The lines of the entries before n.
ghost use Rattle.std.specs.Prelude.{◌≡◌, ◌*◌, ◌≤◌, length};
ghost use Rattle.certificate.specs.Layout.{max_entries};
ghost use Rattle.listing_text.specs.Lines.{entry_lines};
ghost use Rattle.text.specs.Writing.{HasRoom, Writes};

use crate::line::{line_length, put_line};
use crate::lines;
use entry_records::entries::Entries;
use text::Writer;

// Length and text are two walks over the lines, since a text that its buffer has no room for is not begun (refusal 17).
pub fn entries_length(entries: &Entries<'_>, n: usize) -> usize
    requires { n ≤ max_entries }
    ensures { (result ≡ length (entry_lines entries.now.bytes.now n)) × (result ≤ 55 * n) }
{
    let mut total = 0;
    for e in 0..n {
        total += line_length(&lines::entry_line(entries, e));
    }
    total
}

pub fn put_entries(writer: &mut Writer, entries: &Entries<'_>, n: usize)
    requires { (n ≤ max_entries) × HasRoom writer.old (entry_lines entries.now.bytes.now n) }
    ensures { Writes writer.old (entry_lines entries.now.bytes.now n) writer.new }
{
    for e in 0..n {
        put_line(writer, &lines::entry_line(entries, e));
    }
}
