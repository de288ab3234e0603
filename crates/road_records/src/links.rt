// LK: one record a link, its fields and its tests. The kind of the certificate says whether it ends with a start flow.
ghost use Rattle.std.specs.Prelude.{◌≡◌, ◌+◌, ◌<◌, ◌≤◌, length};
ghost use Rattle.certificate.specs.Octets.{byte_at, u16_at};
ghost use Rattle.certificate.specs.Checks.{first_bad};
ghost use Rattle.certificate.specs.Layout.{plain_link_size, max_link_size, remembers, link_at, link_size, tail_of, head_of, cap_of, flow_of, safe_of, goal_of, start_flow_of};
ghost use Rattle.certificate.specs.Records.{link_ok, link_fault};
ghost use Rattle.octets.specs.Refusals.{told};

use certificate::limits;
use octets::refusals::{self, Refusal, Refused};

// The size of a link's record, by whether the kind is H2 or H3.
pub fn size_for(s: &[u8], memory: bool) -> usize
    requires { memory ≡ remembers s.now }
    ensures { (result ≡ link_size s.now) × (plain_link_size ≤ result) × (result ≤ max_link_size) }
{
    if memory {
        limits::MAX_LINK_SIZE
    } else {
        limits::PLAIN_LINK_SIZE
    }
}

// Where the record of link l stands, by the size of one.
fn place_for(s: &[u8], size: usize, l: usize) -> usize
    requires { (l < 256) × (size ≡ link_size s.now) × (size ≤ max_link_size) }
    ensures { (result ≡ link_at s.now l) × (result ≤ 4000) }
{
    limits::HEADER_SIZE + size * l
}

// Where the record of link l stands.
pub fn link_at(s: &[u8], l: usize) -> usize
    requires { l < 256 }
    ensures { (result ≡ link_at s.now l) × (result ≤ 4000) }
{
    place_for(s, size_for(s, header_record::has_memory(s)), l)
}

// The byte and the two-byte number at offset k of the record of link l.
fn link_byte(s: &[u8], l: usize, k: usize) -> usize
    requires { (l < 256) × (k < 256) }
    ensures { (result ≡ byte_at s.now (link_at s.now l + k)) × (result < 256) }
{
    octets::byte_at(s, link_at(s, l) + k)
}

fn link_u16(s: &[u8], l: usize, k: usize) -> usize
    requires { (l < 256) × (k < 256) }
    ensures { (result ≡ u16_at s.now (link_at s.now l + k)) × (result < 65536) }
{
    octets::u16_at(s, link_at(s, l) + k)
}

// The same where the link is there whole: no test, for speed (a byte past the end reads as 0, so no one test would let those above call these).
fn link_byte_within(s: &[u8], l: usize, k: usize) -> usize
    requires { (l < 256) × (k < plain_link_size) × (link_at s.now l + link_size s.now ≤ length s.now) }
    ensures { (result ≡ byte_at s.now (link_at s.now l + k)) × (result < 256) }
{
    let size = size_for(s, header_record::has_memory_within(s));
    octets::byte_within(s, place_for(s, size, l) + k)
}

fn link_u16_within(s: &[u8], l: usize, k: usize) -> usize
    requires { (l < 256) × (k + 1 < plain_link_size) × (link_at s.now l + link_size s.now ≤ length s.now) }
    ensures { (result ≡ u16_at s.now (link_at s.now l + k)) × (result < 65536) }
{
    let size = size_for(s, header_record::has_memory_within(s));
    octets::u16_within(s, place_for(s, size, l) + k)
}

pub fn tail_of(s: &[u8], l: usize) -> usize
    requires { l < 256 }
    ensures { (result ≡ tail_of s.now l) × (result < 256) }
{
    link_byte(s, l, 2)
}

pub fn head_of(s: &[u8], l: usize) -> usize
    requires { l < 256 }
    ensures { (result ≡ head_of s.now l) × (result < 256) }
{
    link_byte(s, l, 3)
}

pub fn cap_of(s: &[u8], l: usize) -> usize
    requires { l < 256 }
    ensures { (result ≡ cap_of s.now l) × (result < 65536) }
{
    link_u16(s, l, 4)
}

pub fn flow_of(s: &[u8], l: usize) -> usize
    requires { l < 256 }
    ensures { (result ≡ flow_of s.now l) × (result < 65536) }
{
    link_u16(s, l, 6)
}

pub fn safe_of(s: &[u8], l: usize) -> usize
    requires { l < 256 }
    ensures { (result ≡ safe_of s.now l) × (result < 65536) }
{
    link_u16(s, l, 8)
}

pub fn goal_of(s: &[u8], l: usize) -> usize
    requires { l < 256 }
    ensures { (result ≡ goal_of s.now l) × (result < 65536) }
{
    link_u16(s, l, 10)
}

// In H2 and H3 the most that leaves in the first green step; in HD the flow.
pub fn start_flow_of(s: &[u8], l: usize) -> usize
    requires { l < 256 }
    ensures { (result ≡ start_flow_of s.now l) × (result < 65536) }
{
    if header_record::has_memory(s) {
        link_u16(s, l, 12)
    } else {
        flow_of(s, l)
    }
}

// Cap, flow and start flow of a link that is there whole: no test.
pub fn cap_within(s: &[u8], l: usize) -> usize
    requires { (l < 256) × (link_at s.now l + link_size s.now ≤ length s.now) }
    ensures { (result ≡ cap_of s.now l) × (result < 65536) }
{
    link_u16_within(s, l, 4)
}

pub fn flow_within(s: &[u8], l: usize) -> usize
    requires { (l < 256) × (link_at s.now l + link_size s.now ≤ length s.now) }
    ensures { (result ≡ flow_of s.now l) × (result < 65536) }
{
    link_u16_within(s, l, 6)
}

fn start_flow_within(s: &[u8], l: usize) -> usize
    requires { (l < 256) × (link_at s.now l + link_size s.now ≤ length s.now) }
    ensures { (result ≡ start_flow_of s.now l) × (result < 65536) }
{
    if header_record::has_memory_within(s) {
        let o = place_for(s, limits::MAX_LINK_SIZE, l);
        octets::u16_within(s, o + 12)
    } else {
        flow_within(s, l)
    }
}

// The fields of a link that is there whole are as they must be.
fn link_ok(s: &[u8], l: usize) -> bool
    requires { (l < 256) × (link_at s.now l + link_size s.now ≤ length s.now) }
    ensures { result ≡ link_ok s.now l }
{
    let head = link_byte_within(s, l, 3);
    let cap = cap_within(s, l);
    let flow = flow_within(s, l);
    let safe = link_u16_within(s, l, 8);
    let start = start_flow_within(s, l);
    (1 <= head)
        & (head != link_byte_within(s, l, 2))
        & (1 <= cap)
        & (cap <= limits::MAX_CAP)
        & (1 <= flow)
        & (flow <= cap)
        & (safe <= cap)
        & (link_u16_within(s, l, 10) <= safe)
        & (1 <= start)
        & (start <= flow)
}

fn check_link(s: &[u8], l: usize) -> Result<(), Refused>
    requires { l < 256 }
    ensures { told result ≡ link_fault s.now l }
{
    let size = size_for(s, header_record::has_memory(s));
    let o = place_for(s, size, l);
    refusals::check_opened(s, o, octets::marked_as(s, o, 76, 75), size)?;
    refusals::require(link_ok(s, l), Refusal::Link, o)
}

pub fn check_links(s: &[u8], links: usize) -> Result<(), Refused>
    requires { links < 256 }
    ensures { told result ≡ first_bad links (link_fault s.now) }
{
    for l in 0..links {
        check_link(s, l)?;
    }
    Ok(())
}
