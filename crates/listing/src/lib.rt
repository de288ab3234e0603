// The listing of a certificate as text.
#![tactic(auto)]

ghost use Rattle.std.specs.Prelude.{◌≤◌, IfOk};
ghost use Rattle.listing.specs.Rendering.{sent_told};
ghost use Rattle.listing_text.specs.Listing.{listing_of, Sent};
ghost use Rattle.octets.specs.Bounds.{offset_bound};

mod render;

use certificate::{Report, limits};
use octets::refusals::Refused;

// A buffer of this length has room for every listing (listing_text `max_listing`): the line of counts, the entries, the last line.
pub const MAX_TEXT: usize = 60 + 23 * limits::MAX_ENTRIES + 25;

// Renders the listing of s: how long its text is.
fn put_listing(s: &[u8], buffer: &mut [u8]) -> Result<usize, Refused>
    ensures sent { Sent (listing_of s.now) buffer.old buffer.new (sent_told result) }
    ensures size { IfOk result (λ size. size ≤ offset_bound) }
{
    match verdict::judge_with_layout(s) {
        Ok(judged) => render::render_accepted(&judged, buffer),
        Err(refused) => render::render_refused(refused.into(), buffer),
    }
}

// Renders the listing of s into the front of the lent buffer: 0 with A the length of the text, or 17 and the buffer as it was.
pub fn list(s: &[u8], buffer: &mut [u8]) -> Report
    ensures { Sent (listing_of s.now) buffer.old buffer.new result }
{
    match put_listing(s, buffer) {
        Ok(size) => octets::success(size),
        Err(refused) => refused.into(),
    }
}
