// The goals of the modes of an H3 certificate: the fields of MD behind the signal.
ghost use Rattle.std.specs.Prelude.{true, ◌≡◌, ◌<◌};
ghost use Rattle.certificate.specs.Layout.{takes_turns, goal_number_of, goal_for, greatest_goal};

use crate::modes;

impl modes::Modes<'_> {
    pub fn goal_number(&self, m: usize) -> usize
        requires { (m < 256) × (takes_turns self.now.bytes.now ≡ true) }
        ensures { (result ≡ goal_number_of self.now.bytes.now m) × (result < 256) }
    {
        octets::byte_at(self.bytes, self.record_at(m) + 3)
    }

    // The goal of mode m on link l.
    pub fn goal_for(&self, m: usize, l: usize) -> usize
        requires { (m < 256) × (l < 256) × (takes_turns self.now.bytes.now ≡ true) }
        ensures { (result ≡ goal_for self.now.bytes.now m l) × (result < 65536) }
    {
        octets::u16_at(self.bytes, self.record_at(m) + (4 + 2 * l))
    }

    // The greatest goal number used.
    pub fn greatest_number(&self) -> usize
        requires { takes_turns self.now.bytes.now ≡ true }
        ensures { (result ≡ greatest_goal self.now.bytes.now) × (result < 256) }
    {
        (0..header_record::modes_of(self.bytes)).fold(
            0,
            |greatest, m| greatest.max(self.goal_number(m)),
        )
    }

    // The same of any certificate: 0 in HD and H2.
    pub fn greatest_goal(&self) -> usize
        ensures { (result ≡ greatest_goal self.now.bytes.now) × (result < 256) }
    {
        if header_record::takes_turns(self.bytes) {
            return self.greatest_number();
        }
        0
    }
}
