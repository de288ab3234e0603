// All tests that come before 12: reading, then conditions 10 and 11.
#![tactic(auto)]

ghost use Rattle.reading.specs.ReadingResults.{ReadAs};
ghost use Rattle.network.specs.Conditions.{screening_of};

mod conditions;

use octets::refusals::Refused;
use reading::Certificate;

// Screens any bytes: refusals 1 to 11, 22, 23 and 24, or the certificate that they are.
pub fn screen(s: &[u8]) -> Result<Certificate<'_>, Refused>
    ensures { ReadAs s.now (screening_of s.now) result }
{
    let certificate = reading::read(s)?;
    conditions::check_pulls(&certificate)?;
    conditions::check_rooms(&certificate)?;
    Ok(certificate)
}
