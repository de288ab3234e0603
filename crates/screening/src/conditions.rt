// Conditions 10 and 11. `byte` has a signal's green links.
ghost use Rattle.std.specs.Prelude.{◌≡◌, ℕ, ◌*◌, ◌<◌, ◌≤◌, leb, get_or};
ghost use Rattle.certificate.specs.Octets.{bit_of};
ghost use Rattle.certificate.specs.Loops.{pick};
ghost use Rattle.certificate.specs.Checks.{report_with, fine, need};
ghost use Rattle.certificate.specs.Layout.{max_share, max_pull, max_pull_sum, links_of, turns_of, signals_of, from_of, share_of, pull_of};
ghost use Rattle.network.specs.Network.{network_of};
ghost use Rattle.network.specs.Conditions.{pull_sum, signal_pulls_fault, pulls_fault, room_ok, rooms_fault};
ghost use Rattle.octets.specs.Refusals.{told};

use certificate::limits;
use octets::refusals::{Refusal, Refused, refuse_at, require};
use reading::Certificate;
use signal_records::signals;

// Share × pull of turn t where its from link is green, else 0.
fn green_pull(certificate: &Certificate<'_>, byte: usize, t: usize) -> usize
    requires { t < turns_of certificate.now.bytes.now }
    ensures { (result ≡ pick (bit_of byte (from_of certificate.now.bytes.now t)) (share_of certificate.now.bytes.now t * pull_of certificate.now.bytes.now t) 0) × (result ≤ max_share * max_pull) }
{
    if signals::is_green(byte, certificate.from_of(t)) {
        certificate.share_of(t) * certificate.pull_of(t)
    } else {
        0
    }
}

// The pull sum of each link, by one pass over the turns.
fn pull_sums(certificate: &Certificate<'_>, byte: usize) -> [usize; limits::MAX_LINKS]
    ensures { (l : ℕ) → l < links_of certificate.now.bytes.now → get_or result l 0 ≡ pull_sum (network_of certificate.now.bytes.now) (bit_of byte) l }
{
    let mut sums = [0usize; limits::MAX_LINKS];
    for t in 0..certificate.layout.turns {
        let to = certificate.to_of(t);
        sums[to] += green_pull(certificate, byte, t);
    }
    sums
}

// 10 of signal g and link l, by the link's pull sum.
fn check_pull(sum: usize, g: usize, l: usize) -> Result<(), Refused>
    requires { (g < 256) × (l < 256) }
    ensures { told result ≡ need (leb sum max_pull_sum) (report_with 10 g l 0) fine }
{
    if sum <= limits::MAX_PULL_SUM {
        Ok(())
    } else {
        Err(refuse_at(Refusal::PullSum, g, l, 0))
    }
}

// 10 of signal g: links ascending.
fn check_signal(certificate: &Certificate<'_>, g: usize) -> Result<(), Refused>
    requires { g < signals_of certificate.now.bytes.now }
    ensures { told result ≡ signal_pulls_fault certificate.now.bytes.now g }
{
    let sums = pull_sums(certificate, certificate.green_byte_of(g));
    for l in 0..certificate.layout.links {
        check_pull(sums[l], g, l)?;
    }
    Ok(())
}

// Condition 10: signals, then links ascending.
pub fn check_pulls(certificate: &Certificate<'_>) -> Result<(), Refused>
    ensures { told result ≡ pulls_fault certificate.now.bytes.now }
{
    for g in 0..certificate.layout.signals {
        check_signal(certificate, g)?;
    }
    Ok(())
}

// Whether turn t leaves room: 100 × flow of from is at most pull × (cap − flow) of to.
fn room_ok(certificate: &Certificate<'_>, t: usize) -> bool
    requires { t < turns_of certificate.now.bytes.now }
    ensures { result ≡ room_ok certificate.now.bytes.now t }
{
    let to = certificate.to_of(t);
    let room = certificate.cap_of(to) - certificate.flow_of(to);
    100 * certificate.flow_of(certificate.from_of(t)) <= certificate.pull_of(t) * room
}

// Condition 11: turns ascending.
pub fn check_rooms(certificate: &Certificate<'_>) -> Result<(), Refused>
    ensures { told result ≡ rooms_fault certificate.now.bytes.now }
{
    for t in 0..certificate.layout.turns {
        require(room_ok(certificate, t), Refusal::Room, t)?;
    }
    Ok(())
}
