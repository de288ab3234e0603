// The text of a listing, put into a lent buffer: the whole of it, or nothing where the buffer is shorter (refusal 17).
ghost use Rattle.std.specs.Prelude.{◌≡◌, ◌≤◌, length, IfOk};
ghost use Rattle.text.specs.Writing.{HasRoom, Writes};
ghost use Rattle.listing.specs.Rendering.{judged_text, sent_told};
ghost use Rattle.listing_text.specs.Lines.{refused_line};
ghost use Rattle.listing_text.specs.Listing.{Sent};
ghost use Rattle.octets.specs.Bounds.{offset_bound};

use certificate::Report;
use listing_lines::line::{line_length, put_line};
use listing_lines::{entries, lines};
use octets::refusals::{Refusal, Refused, require};
use text::Writer;
use verdict::Judged;

// The text of an accepted certificate: how long it is.
fn text_length(judged: &Judged<'_>) -> usize
    ensures { (result ≡ length (judged_text judged.now)) × (result ≤ offset_bound) }
{
    let Judged {
        certificate,
        accepted,
    } = judged;
    line_length(&lines::counts_line(certificate.bytes))
        + entries::entries_length(&certificate.entries(), certificate.layout.entries)
        + line_length(&lines::accepted_line(Report::from(*accepted), accepted.overflows))
}

// The text of an accepted certificate, put into the buffer.
fn put_text(writer: &mut Writer, judged: &Judged<'_>)
    requires { HasRoom writer.old (judged_text judged.now) }
    ensures { Writes writer.old (judged_text judged.now) writer.new }
{
    let Judged {
        certificate,
        accepted,
    } = judged;
    put_line(writer, &lines::counts_line(certificate.bytes));
    entries::put_entries(writer, &certificate.entries(), certificate.layout.entries);
    put_line(
        writer,
        &lines::accepted_line(Report::from(*accepted), accepted.overflows),
    );
}

// The listing of an accepted certificate: how long its text is.
pub fn render_accepted(judged: &Judged<'_>, buffer: &mut [u8]) -> Result<usize, Refused>
    ensures sent { Sent (judged_text judged.now) buffer.old buffer.new (sent_told result) }
    ensures size { IfOk result (λ size. size ≤ offset_bound) }
{
    let size = text_length(judged);
    require(size <= buffer.len(), Refusal::NoRoom, 0)?;
    put_text(&mut Writer { buffer, at: 0 }, judged);
    Ok(size)
}

// The listing of a refused certificate: how long its line is.
pub fn render_refused(report: Report, buffer: &mut [u8]) -> Result<usize, Refused>
    ensures sent { Sent (refused_line report) buffer.old buffer.new (sent_told result) }
    ensures size { IfOk result (λ size. size ≤ offset_bound) }
{
    let line = lines::refused_line(report);
    let size = line_length(&line);
    require(size <= buffer.len(), Refusal::NoRoom, 0)?;
    put_line(&mut Writer { buffer, at: 0 }, &line);
    Ok(size)
}
