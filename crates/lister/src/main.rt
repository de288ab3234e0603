// Lists a certificate: standard input to standard output. Bytes past the greatest length of a certificate and one more change no
// listing (listing_text `ListingOfLong`), so no more are read.
#![tactic(auto)]

ghost use Rattle.std.specs.Prelude.{◌≡◌, ◌≤◌, length, take};
ghost use Rattle.listing_text.specs.Listing.{listing_of};
ghost use Rattle.listing_text.specs.Laws.{max_listing};

use certificate::limits;
use std::io::{self, Read};

// Lists the bytes: the text, which has room for every listing, then begins with the whole of it, and the answer is how long that is.
fn listed(bytes: &[u8], text: &mut [u8]) -> usize
    requires { max_listing ≤ length text.old }
    ensures place { result ≤ length text.new }
    ensures whole { take result text.new ≡ listing_of bytes.now }
{
    let report = listing::list(bytes, text);
    report.a as usize
}

fn main(rt: HostRuntime) -> io::Result<()> {
    let mut bytes = Vec::new(rt.alloc());
    let mut input = rt.reader().take(limits::MAX_LENGTH as u64 + 1);
    input.read_to_end(&mut bytes)?;
    let mut text = [0u8; listing::MAX_TEXT];
    let end = listed(&bytes, &mut text);
    rt.write_all(&text[..end])
}
