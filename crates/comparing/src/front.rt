// What stands before the first entry.
ghost use Rattle.std.specs.Prelude.{◌≡◌, ◌≤◌};
ghost use Rattle.certificate.specs.Loops.{every};
ghost use Rattle.octets.specs.Bounds.{start_bound};
ghost use Rattle.covering.specs.Covering.{byte_agrees, same_front};

use reading::Certificate;

// The bytes before n agree, the entry count left aside.
fn agree_before(s: &[u8], t: &[u8], n: usize) -> bool
    ensures { result ≡ every n (byte_agrees s.now t.now) }
{
    (0..n).all(|o| o == 7 || o == 8 || octets::byte_at(s, o) == octets::byte_at(t, o))
}

// All bytes before the first entry agree, the entry count left aside.
pub fn same_front(s: &Certificate<'_>, t: &Certificate<'_>) -> bool
    ensures { result ≡ same_front s.now.bytes.now t.now.bytes.now }
{
    let start = s.layout.entries_start;
    start == t.layout.entries_start && agree_before(s.bytes, t.bytes, start)
}
