// What refusal 16 asks of a query: its scale, the number of its queues, and each queue.
ghost use Rattle.std.specs.Prelude.{◌≡◌, ◌*◌, leb, length};
ghost use Rattle.certificate.specs.Loops.{every};
ghost use Rattle.certificate.specs.Layout.{links_of, cap_of};
ghost use Rattle.judging.specs.Asking.{queue_at, is_proper};

use certificate::limits;
use reading::Certificate;

// No queue is above cap times the scale.
fn queues_fit(certificate: &Certificate<'_>, queues: &[u32], scale: u32) -> bool
    requires { length queues.now ≡ links_of certificate.now.bytes.now }
    ensures { result ≡ every (links_of certificate.now.bytes.now) (λ l. leb (queue_at queues.now l) (cap_of certificate.now.bytes.now l * scale)) }
{
    (0..queues.len()).all(|l| queues[l] as usize <= certificate.cap_of(l) * scale as usize)
}

// Scale 1 to 100,000, as many queues as links, and no queue too long.
pub fn is_proper(certificate: &Certificate<'_>, queues: &[u32], scale: u32) -> bool
    ensures { result ≡ is_proper certificate.now.bytes.now queues.now scale }
{
    (1..=limits::MAX_SCALE).contains(&scale)
        && queues.len() == certificate.layout.links
        && queues_fit(certificate, queues, scale)
}
