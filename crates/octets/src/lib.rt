// Bytes and marks at an offset, reports, and refusals.
#![tactic(auto)]

ghost use Rattle.std.specs.Prelude.{◌≡◌, ◌+◌, ◌<◌, ◌≤◌, length};
ghost use Rattle.certificate.specs.Octets.{byte_at, u16_at};
ghost use Rattle.certificate.specs.Checks.{report_with, refusal, fine, need, or_else, marked};
ghost use Rattle.octets.specs.Bounds.{offset_bound};

pub mod filling;
pub mod refusals;

use certificate::Report;

// The byte at an offset, 0 past the end.
pub fn byte_at(s: &[u8], at: usize) -> usize
    ensures { (result ≡ byte_at s.now at) × (result < 256) }
{
    if at < s.len() { usize::from(s[at]) } else { 0 }
}

// The two-byte number at an offset, high byte first.
pub fn u16_at(s: &[u8], at: usize) -> usize
    requires { at ≤ offset_bound }
    ensures { (result ≡ u16_at s.now at) × (result < 65536) }
{
    byte_at(s, at) * 256 + byte_at(s, at + 1)
}

// The same where the offset is known to lie within: no test.
pub fn byte_within(s: &[u8], at: usize) -> usize
    requires { at < length s.now }
    ensures { (result ≡ byte_at s.now at) × (result < 256) }
{
    usize::from(s[at])
}

pub fn u16_within(s: &[u8], at: usize) -> usize
    requires { (at ≤ offset_bound) × (at + 1 < length s.now) }
    ensures { (result ≡ u16_at s.now at) × (result < 65536) }
{
    byte_within(s, at) * 256 + byte_within(s, at + 1)
}

// A report by its number, places A and B and count. Where a function refuses by its cause, `refusals` has the same.
pub fn report(number: u8, a: usize, b: usize, count: u32) -> Report
    requires { (a ≤ offset_bound) × (b ≤ offset_bound) }
    ensures { result ≡ report_with number a b count }
{
    Report {
        number,
        a: a as u32,
        b: b as u32,
        count,
    }
}

// That of success, with place A.
pub fn success(a: usize) -> Report
    requires { a ≤ offset_bound }
    ensures { result ≡ report_with 0 a 0 0 }
{
    report(0, a, 0, 0)
}

// The same with no place.
pub fn accept() -> Report
    ensures { result ≡ fine }
{
    success(0)
}

// That of a refusal, with place A.
pub fn refuse(number: u8, a: usize) -> Report
    requires { a ≤ offset_bound }
    ensures { result ≡ refusal number a }
{
    report(number, a, 0, 0)
}

// The two-byte mark at o, which is known to lie within, is m and k.
pub fn marked_within(s: &[u8], o: usize, m: usize, k: usize) -> bool
    requires { (o ≤ offset_bound) × (o + 2 ≤ length s.now) }
    ensures { result ≡ marked s.now o m k }
{
    (byte_within(s, o) == m) & (byte_within(s, o + 1) == k)
}

// The same at any offset, for a mark whose second byte is not 0: none stands past the end.
pub fn marked_as(s: &[u8], o: usize, m: usize, k: usize) -> bool
    requires { (o ≤ offset_bound) × (1 ≤ k) }
    ensures { result ≡ marked s.now o m k }
{
    if s.len() < o + 2 {
        return false;
    }
    marked_within(s, o, m, k)
}

// The first report where it refuses, else the second.
pub fn or_else(first: Report, second: Report) -> Report
    ensures { result ≡ or_else first second }
{
    if first.number != 0 {
        return first;
    }
    second
}

// A record's report: its opening where that refuses, else the refusal of that number where its fields are not as they must be.
pub fn record_result(opening: Report, ok: bool, number: u8, o: usize) -> Report
    requires { o ≤ offset_bound }
    ensures { result ≡ or_else opening (need ok (refusal number o) fine) }
{
    if opening.number != 0 {
        return opening;
    }
    if !ok {
        return refuse(number, o);
    }
    accept()
}
