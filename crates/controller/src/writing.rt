// Writing the stored records into the part of a lent buffer from a start on.
ghost use Rattle.std.specs.Prelude.{◌≡◌, ◌≤◌, IfOk};
ghost use Rattle.certificate.specs.Layout.{max_length};
ghost use Rattle.controller.specs.Parts.{told_length};
ghost use Rattle.controller.specs.Write.{write_report, write_buffer};

use crate::Controller;
use asking::stored;
use certificate::Report;
use octets::refusals::{Refusal, Refused, refuse};

impl Controller {
    // Writes the stored certificate into the buffer from start on; its length. Refuses where none is stored (18), and where the start
    // lies beyond the buffer or the part from there is too short (17).
    fn write_stored(&self, buffer: &mut [u8], start: usize) -> Result<usize, Refused>
        ensures wrote { (told_length result ≡ write_report self.now buffer.old start) × (buffer.new ≡ write_buffer self.now buffer.old start) }
        ensures fits { IfOk result (λ n. n ≤ max_length) }
    {
        let certificate = stored::held(&self.bytes, self.len)?;
        let n = certificate.bytes.len();
        if start > buffer.len() || buffer.len() - start < n {
            return Err(refuse(Refusal::NoRoom, 0));
        }
        for (i, byte) in buffer[start..start + n].iter_mut().enumerate() {
            *byte = certificate.bytes[i];
        }
        Ok(n)
    }

    // Writes the stored certificate into the buffer from start on; refuses where none is stored (18) or there is no room (17).
    pub fn write(self, buffer: &mut [u8], start: usize) -> Report
        ensures { (result ≡ write_report self buffer.old start) × (buffer.new ≡ write_buffer self buffer.old start) }
    {
        match self.write_stored(buffer, start) {
            Ok(length) => octets::success(length),
            Err(refused) => Report::from(refused),
        }
    }
}
