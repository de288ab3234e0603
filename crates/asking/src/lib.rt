// Looking up a query's entry in the bytes of a certificate: the tests 18, 16, 19, in that order.
#![tactic(auto)]

ghost use Rattle.std.specs.Prelude.{◌≡◌, ◌≤◌};
ghost use Rattle.certificate.specs.Layout.{max_cells, max_entries};
ghost use Rattle.asking.specs.FoundEntries.{showing, answer_of, found_at, cell_found, lookup_of, asked_of};

mod proper;
pub mod stored;

use cell_tables::queues as grid_queues;
use octets::refusals::{Refusal, Refused, refuse, require};
use rank_tables::lookup;
use reading::Certificate;

// What a query finds: the signal and its green byte, and the mode that the state passes to.
#[derive(Clone, Copy)]
pub struct Found {
    pub signal: u8,
    pub green: u8,
    pub mode: u8,
}

// What entry e says.
fn found_at(certificate: &Certificate<'_>, e: usize) -> Found
    requires { e ≤ max_entries }
    ensures { showing result ≡ found_at certificate.now.bytes.now e }
{
    let entry = certificate.cabinet_entry(e);
    Found {
        signal: entry.signal as u8,
        green: certificate.green_byte_of(entry.signal) as u8,
        mode: entry.next_mode as u8,
    }
}

// What is found for a cell: what its entry for the mode says, or 19.
pub fn find_cell(certificate: &Certificate<'_>, mode: u8, cell: usize) -> Result<Found, Refused>
    requires { cell ≤ max_cells }
    ensures { answer_of mode result ≡ cell_found certificate.now.bytes.now mode cell }
{
    match lookup::find_entry(certificate, cell, usize::from(mode)) {
        Some(e) => Ok(found_at(certificate, e)),
        None => Err(refuse(Refusal::NoEntry, 0)),
    }
}

// Looks up in a certificate.
fn look_up(
    certificate: &Certificate<'_>,
    mode: u8,
    queues: &[u32],
    scale: u32,
) -> Result<Found, Refused>
    ensures { answer_of mode result ≡ lookup_of certificate.now.bytes.now mode queues.now scale }
{
    let proper = proper::is_proper(certificate, queues, scale);
    require(proper, Refusal::Improper, 0)?;
    let cell = grid_queues::cell_at(certificate, queues, scale);
    find_cell(certificate, mode, cell)
}

// Looks up in the first n of the bytes, where they are a certificate. A refusal leaves the mode as it was.
pub fn ask(bytes: &[u8], n: usize, mode: u8, queues: &[u32], scale: u32) -> Result<Found, Refused>
    ensures { answer_of mode result ≡ asked_of bytes.now n mode queues.now scale }
{
    let certificate = stored::held(bytes, n)?;
    look_up(&certificate, mode, queues, scale)
}
