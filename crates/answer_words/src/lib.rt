// How answers and queues cross to C: an answer is one number of 64 bits, a queue four bytes.
#![tactic(auto)]

ghost use Rattle.std.specs.Prelude.{◌≡◌};
ghost use Rattle.verdict.specs.Entries.{verdict_told, overflows_in};
ghost use Rattle.answer_words.specs.Words.{display_word, verdict_word, LoadFits, queues_in};

use certificate::limits;
use held_state::Display;
use octets::refusals::Refused;
use verdict::Accepted;

// The number of a query's or a poll's answer.
pub fn display_word(d: Display) -> u64
    ensures { result ≡ display_word d }
{
    let report = d.report;
    u64::from(report.number)
        + 256 * u64::from(report.a)
        + 65536 * u64::from(report.count)
        + 16777216 * u64::from(d.signal)
        + 4294967296 * u64::from(d.green)
}

// The number of a load's answer.
pub fn verdict_word(judged: Result<Accepted, Refused>) -> u64
    requires { LoadFits (verdict_told judged) (overflows_in judged) }
    ensures { result ≡ verdict_word (verdict_told judged) (overflows_in judged) }
{
    match judged {
        Ok(accepted) => {
            256 * u64::from(accepted.overflows) + 68719476736 * u64::from(accepted.count)
        }
        Err(refused) => {
            u64::from(refused.why.number())
                + 256 * u64::from(refused.a)
                + 16777216 * u64::from(refused.b)
                + 68719476736 * u64::from(refused.count)
        }
    }
}

// The queues that bytes are, each four bytes, in the room that is lent for them; where the bytes are no whole number of queues, or more than there
// are links, there are none.
pub fn read_queues<'q>(bytes: &[u8], of: &'q mut [u32; limits::MAX_LINKS]) -> &'q [u32]
    ensures { result.now ≡ queues_in bytes.now }
{
    let (quads, rest) = bytes.as_chunks();
    if !rest.is_empty() || quads.len() > limits::MAX_LINKS {
        return &[];
    }
    for l in 0..quads.len() {
        of[l] = u32::from_be_bytes(quads[l]);
    }
    &of[..quads.len()]
}
