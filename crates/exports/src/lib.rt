// The library's calls for programs in other languages, on numbers and slices. Each is thin: it lends what it is lent to a proved call.
// A call's answer goes to the front of `out`, on refusal too; an `out` that is too short gets 255, and nothing changes.
#![tactic(auto)]

ghost use Rattle.std.specs.Prelude.{◌≡◌, ◌≤◌, [], ◌∷◌, ◌++◌, length, drop};
ghost use Rattle.network.specs.Conditions.{screening_of};
ghost use Rattle.judging.specs.Verdict.{verdict_of};
ghost use Rattle.judging.specs.Overflow.{overflows_of};
ghost use Rattle.covering.specs.Comparing.{comparison_of, report_of};
ghost use Rattle.verdict.specs.Entries.{verdict_told, overflows_in};
ghost use Rattle.exports.specs.Exported.{report_numbers, verdict_numbers, comparison_numbers, Answers};
ghost use Rattle.exports.specs.Calls.{ListCall, FreshCall, LoadCall, QueryCall, WriteCall};

use certificate::Report;
use comparing::answers;
use covering::Comparison;
use held_state::Display;
use octets::refusals::{Refusal, Refused, refuse};
use verdict::Accepted;

// The four numbers of a report go to the front of `out`; the result is the report's number.
fn put_report(report: Report, out: &mut [u32]) -> u32
    requires { 4 ≤ length out.old }
    ensures { (result ≡ report.number) × (out.new ≡ report_numbers report ++ drop 4 out.old) }
{
    let number = u32::from(report.number);
    out[..4].copy_from_slice(&[number, report.a, report.b, report.count]);
    number
}

// A verdict's report and the number of entries that may turn arrivals away go to the front of `out`; the result is the report's number.
fn put_verdict(judged: Result<Accepted, Refused>, out: &mut [u32]) -> u32
    requires { 5 ≤ length out.old }
    ensures { (result ≡ (verdict_told judged).number) × (out.new ≡ verdict_numbers (verdict_told judged) (overflows_in judged) ++ drop 5 out.old) }
{
    let (report, overflows) = match judged {
        Ok(accepted) => (accepted.into(), accepted.overflows),
        Err(refused) => (refused.into(), 0),
    };
    let number = put_report(report, out);
    out[4] = overflows;
    number
}

// A comparison's report and which of the two is better go to the front of `out`; the result is the report's number.
fn put_comparison(found: Comparison, out: &mut [u32]) -> u32
    requires { 5 ≤ length out.old }
    ensures { (result ≡ (report_of found).number) × (out.new ≡ comparison_numbers found ++ drop 5 out.old) }
{
    let number = put_report(answers::report_of(found), out);
    out[4] = answers::better_number(found);
    number
}

// A query's report, signal and green byte go to the front of `out`; the result is the report's number.
fn put_shown(shown: Display, out: &mut [u32]) -> u32
    requires { 6 ≤ length out.old }
    ensures { (result ≡ shown.report.number) × (out.new ≡ (report_numbers shown.report ++ (shown.signal ∷ shown.green ∷ [])) ++ drop 6 out.old) }
{
    let number = put_report(shown.report, out);
    out[4] = u32::from(shown.signal);
    out[5] = u32::from(shown.green);
    number
}

// The tests that come before 12, of any bytes.
#[unsafe(no_mangle)]
pub extern "C" fn dergvost_screen(s: &[u8], out: &mut [u32]) -> u32
    ensures { Answers (report_numbers (screening_of s.now)) out.old out.new result }
{
    if out.len() < 4 {
        return 255;
    }
    match screening::screen(s) {
        Ok(_) => put_report(octets::accept(), out),
        Err(refused) => put_report(refused.into(), out),
    }
}

// The verdict of any bytes, with the number of entries that may turn arrivals away.
#[unsafe(no_mangle)]
pub extern "C" fn dergvost_judge(s: &[u8], out: &mut [u32]) -> u32
    ensures { Answers (verdict_numbers (verdict_of s.now) (overflows_of s.now)) out.old out.new result }
{
    if out.len() < 5 {
        return 255;
    }
    put_verdict(verdict::judge(s), out)
}

// Which of any two byte strings is the better certificate, or the refusal of the first that is not accepted.
#[unsafe(no_mangle)]
pub extern "C" fn dergvost_compare(s: &[u8], t: &[u8], out: &mut [u32]) -> u32
    ensures { Answers (comparison_numbers (comparison_of s.now t.now)) out.old out.new result }
{
    if out.len() < 5 {
        return 255;
    }
    put_comparison(comparing::compare(s, t), out)
}

// The listing of any bytes into the front of a buffer.
#[unsafe(no_mangle)]
pub extern "C" fn dergvost_list(s: &[u8], buffer: &mut [u8], out: &mut [u32]) -> u32
    ensures { ListCall s.now buffer.old buffer.new out.old out.new result }
{
    if out.len() < 4 {
        return 255;
    }
    let listed = listing::list(s, buffer);
    put_report(listed, out)
}

// The fresh state's bytes into a slice of their length; any other length gets 18, and no byte changes.
#[unsafe(no_mangle)]
pub extern "C" fn dergvost_fresh(state: &mut [u8]) -> u32
    ensures { FreshCall state.old state.new result }
{
    u32::from(held_state::fresh(state).number)
}

// Loads any bytes into the state that the first slice holds; any other length gets 18. A refusal leaves its bytes as they were.
#[unsafe(no_mangle)]
pub extern "C" fn dergvost_load(state: &mut [u8], s: &[u8], out: &mut [u32]) -> u32
    ensures { LoadCall s.now state.old state.new out.old out.new result }
{
    if out.len() < 5 {
        return 255;
    }
    put_verdict(held_state::load(state, s), out)
}

// What the state that is held shows for queues over a scale, and the next state. A refusal leaves its bytes as they were.
#[unsafe(no_mangle)]
pub extern "C" fn dergvost_query(
    state: &mut [u8],
    queues: &[u32],
    scale: u32,
    out: &mut [u32],
) -> u32
    ensures { QueryCall queues.now scale state.old state.new out.old out.new result }
{
    if out.len() < 6 {
        return 255;
    }
    put_shown(held_state::query(state, queues, scale), out)
}

// Writes the certificate that is held into a buffer from start on.
#[unsafe(no_mangle)]
pub extern "C" fn dergvost_write(
    state: &[u8],
    buffer: &mut [u8],
    start: usize,
    out: &mut [u32],
) -> u32
    ensures { WriteCall state.now start buffer.old buffer.new out.old out.new result }
{
    if out.len() < 4 {
        return 255;
    }
    if !packed_state::has_state_size(state) {
        return put_report(refuse(Refusal::NoCertificate, 0).into(), out);
    }
    let held = packed_state::unpack(state);
    put_report(held.write(buffer, start), out)
}
