// Loading: the verdict of any bytes, and the state that holds its own copy of an accepted certificate.
ghost use Rattle.std.specs.Prelude.{◌≡◌, ◌≤◌, length};
ghost use Rattle.certificate.specs.Layout.{max_length};
ghost use Rattle.runs.specs.Claim.{RunClaim};
ghost use Rattle.controller.specs.State.{holding, load_of};

use crate::{Controller, Loaded};

impl Controller {
    // The state that holds a copy of s, in mode 0, with zeros past the copy.
    pub fn holding(s: &[u8]) -> Controller
        requires { length s.now ≤ max_length }
        ensures { result ≡ holding s.now }
    {
        let mut bytes = [0u8; Controller::SIZE];
        bytes[..s.len()].copy_from_slice(s);
        Controller {
            bytes,
            len: s.len(),
            mode: 0,
        }
    }

    // Loads any bytes from any state. Every run of an accepted certificate keeps the run claim.
    pub fn load(self, s: &[u8]) -> Loaded
        ensures { (result ≡ load_of self s.now) × (result.report.number ≡ 0 → RunClaim s.now) }
    {
        match verdict::judge(s) {
            Ok(accepted) => Loaded {
                report: accepted.into(),
                overflows: accepted.overflows,
                state: Controller::holding(s),
            },
            Err(refused) => Loaded {
                report: refused.into(),
                overflows: 0,
                state: self,
            },
        }
    }
}
