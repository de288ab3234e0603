// MD: its tests (refusal 6).
ghost use Rattle.std.specs.Prelude.{true, ◌≡◌, ◌<◌};
ghost use Rattle.certificate.specs.Layout.{remembers};
ghost use Rattle.certificate.specs.Records.{mode_ok, mode_fault};
ghost use Rattle.certificate.specs.Reading.{modes_fault};
ghost use Rattle.octets.specs.Refusals.{told};

use crate::goals;
use mode_records::modes::Modes;
use octets::refusals::{self, Refusal, Refused};

// The signal exists, and in H3 the goals are as they must be.
fn mode_ok(modes: &Modes<'_>, m: usize) -> bool
    requires { (m < 256) × (remembers modes.now.bytes.now ≡ true) }
    ensures { result ≡ mode_ok modes.now.bytes.now m }
{
    if modes.shown_before(m) >= header_record::signals_of(modes.bytes) {
        return false;
    }
    if !header_record::takes_turns(modes.bytes) {
        return true;
    }
    goals::goals_ok(modes, m)
}

fn check_mode(modes: &Modes<'_>, m: usize) -> Result<(), Refused>
    requires { (m < 256) × (remembers modes.now.bytes.now ≡ true) }
    ensures { told result ≡ mode_fault modes.now.bytes.now m }
{
    let o = modes.record_at(m);
    let mark = octets::marked_as(modes.bytes, o, 77, 68);
    refusals::check_opened(modes.bytes, o, mark, modes.size)?;
    refusals::require(mode_ok(modes, m), Refusal::Signal, o)
}

pub fn check_modes(modes: &Modes<'_>) -> Result<(), Refused>
    ensures { told result ≡ modes_fault modes.now.bytes.now }
{
    for m in 0..modes.records() {
        check_mode(modes, m)?;
    }
    Ok(())
}
