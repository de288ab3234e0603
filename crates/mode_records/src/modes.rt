// MD: one record a mode of an H2 or H3 certificate, the signal shown before and in H3 its goals; HD has none.
ghost use Rattle.std.specs.Prelude.{true, ◌≡◌, ◌+◌, ◌*◌, ◌<◌, ◌≤◌};
ghost use Rattle.certificate.specs.Layout.{remembers, modes_of, mode_records_of, modes_start, mode_size, mode_at, shown_before};
ghost use Rattle.mode_records.specs.Placed.{size_bound};
ghost use Rattle.octets.specs.Bounds.{start_bound};

use certificate::limits;

// Where the record of mode m stands, behind where those of modes begin.
pub fn mode_at(start: usize, size: usize, m: usize) -> usize
    requires { (m < 256) × (start ≤ start_bound) × (size ≤ size_bound) }
    ensures { (result ≡ start + size * m) × (result ≤ 300000) }
{
    start + size * m
}

// The records of modes of a certificate: where they begin, and the size of each.
#[derive(Clone, Copy)]
pub struct Modes<'a> {
    pub bytes: &'a [u8],
    pub start: usize,
    pub size: usize,
    ghost placed: { start ≡ modes_start bytes.now },
    ghost low: { start ≤ start_bound },
    ghost sized: { size ≡ mode_size bytes.now },
    ghost small: { size ≤ size_bound },
}

impl<'a> Modes<'a> {
    // Those of the certificate in `bytes`, which begin at `start`.
    pub fn of(bytes: &'a [u8], start: usize) -> Modes<'a>
        requires { (start ≤ start_bound) × (start ≡ modes_start bytes.now) }
        ensures { (result.bytes.now ≡ bytes.now) × (result.start ≡ start) }
    {
        Modes {
            bytes,
            start,
            size: size_of(bytes),
        }
    }

    // How many records there are.
    pub fn records(&self) -> usize
        ensures { (result ≡ mode_records_of self.now.bytes.now) × (result ≤ modes_of self.now.bytes.now) × (result < 256) }
    {
        if header_record::has_memory(self.bytes) {
            return header_record::modes_of(self.bytes);
        }
        0
    }

    // Where the record of mode m stands.
    pub fn record_at(&self, m: usize) -> usize
        requires { m < 256 }
        ensures { (result ≡ mode_at self.now.bytes.now m) × (result ≤ 300000) }
    {
        mode_at(self.start, self.size, m)
    }

    // The signal that mode m remembers, where modes do.
    pub fn shown_before(&self, m: usize) -> usize
        requires { (m < 256) × (remembers self.now.bytes.now ≡ true) }
        ensures { (result ≡ shown_before self.now.bytes.now m) × (result < 256) }
    {
        octets::byte_at(self.bytes, self.record_at(m) + 2)
    }
}

// The size of a record; in H3 it has mark, signal, goal number, and a goal a link.
fn size_of(s: &[u8]) -> usize
    ensures { (result ≡ mode_size s.now) × (result ≤ size_bound) }
{
    if header_record::takes_turns(s) {
        return 4 + 2 * header_record::links_of(s);
    }
    limits::PLAIN_MODE_SIZE
}
