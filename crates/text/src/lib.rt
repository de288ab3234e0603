// Words and numbers in decimal, written into a lent buffer one after another.
#![tactic(auto)]

ghost use Rattle.std.specs.Prelude.{◌≡◌, ◌≤◌, length};
ghost use Rattle.listing_text.specs.Text.{decimal};
ghost use Rattle.text.specs.Writing.{HasRoom, Writes};

// A lent buffer, and the place in it where the next text goes.
#[derive(Drop)]
pub struct Writer<'a> {
    pub buffer: &'a mut [u8],
    pub at: usize,
}

impl Writer<'_> {
    pub fn put_word(&mut self, word: &[u8])
        requires { HasRoom self.old word.now }
        ensures { Writes self.old word.now self.new }
    {
        let end = self.at + word.len();
        for (i, byte) in self.buffer[self.at..end].iter_mut().enumerate() {
            *byte = word[i];
        }
        self.at = end;
    }

    // The digits of n, last digit first.
    pub fn put_decimal(&mut self, n: u32)
        requires { HasRoom self.old (decimal n) }
        ensures { Writes self.old (decimal n) self.new }
    {
        let end = self.at + decimal_length(n);
        let mut left = n;
        for i in (self.at + 1..end).rev() {
            self.buffer[i] = b'0' + (left % 10) as u8;
            left /= 10;
        }
        self.buffer[self.at] = b'0' + left as u8;
        self.at = end;
    }
}

// How many digits n has.
pub fn decimal_length(n: u32) -> usize
    ensures { (result ≡ length (decimal n)) × (result ≤ 10) }
{
    if n < 10 { 1 } else { n.ilog10() as usize + 1 }
}
