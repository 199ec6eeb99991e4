// The wheel's audit of a head: its arrays are lent to the audit of the rules.

ghost use Rattle.std.specs.Prelude.{true, ◌↔◌, ◌≡◌};
ghost use Rattle.wheel.specs.Promise.{head_lists};
ghost use Rattle.wheel_rules.specs.Rules.{WheelSound};

use crate::head::Head;
use wheel_rules::audit::lent_sound;

// Whether head and memory keep to the rules.
#[tactic(auto, unfolding(crate::specs::Promise::head_lists))]
pub fn audit(w: &[u64], h: &Head) -> bool
    ensures { (result ≡ true) ↔ WheelSound (head_lists h.now w.now) h.now.dial }
{
    lent_sound(w, &h.first, &h.last, &h.marks, h.dial)
}
