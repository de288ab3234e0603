// The certificate that a state stores.
ghost use Rattle.asking.specs.FoundEntries.{HeldAs};

use octets::refusals::{Refusal, Refused, refuse};
use reading::Certificate;

// The certificate that the first n of the bytes are; 18 where there are fewer, or they are none.
pub fn held(bytes: &[u8], n: usize) -> Result<Certificate<'_>, Refused>
    ensures { HeldAs bytes.now n result }
{
    let none = refuse(Refusal::NoCertificate, 0);
    let stored = bytes.get(..n).ok_or(none)?;
    screening::screen(stored).or(Err(none))
}
