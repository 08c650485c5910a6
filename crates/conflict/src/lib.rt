// What the slot says to a session that would write ("01, When the desk says no", 8 to 10). A version is known here by its stamp, as
// it is to sight.
#![tactic(auto)]

ghost use Rattle.std.specs.Prelude.{◌≡◌};
ghost use Rattle.answer.specs.Code.{code_of, number_of};
ghost use Rattle.sight.specs.Sight.{said_view};
ghost use Rattle.sight.specs.Conflict.{of_another, conflict_of};

use answer::Refusal;
use sight::{Stamp, StatusPage, View};

// What a version says that another session made or ended: "10 if committed, else 9".
#[tactic(auto, using(crate::proofs::Conflicts::another_committed, crate::proofs::Conflicts::another_open))]
fn another(status: StatusPage, x: u64) -> Refusal
    ensures { code_of result ≡ of_another status.entry.bytes.now x }
{
    if status.is_committed(x) {
        Refusal::Conflict
    } else {
        Refusal::InWork
    }
}

// "Once 7 is passed, look at the slot." Done where the session may write. The expirer is looked at before the creator.
#[tactic(auto, using(crate::proofs::Conflicts::conflict_own_expirer, crate::proofs::Conflicts::conflict_expirer, crate::proofs::Conflicts::conflict_earlier, crate::proofs::Conflicts::conflict_own, crate::proofs::Conflicts::conflict_seen, crate::proofs::Conflicts::conflict_unseen))]
pub fn conflict_of(view: View, status: StatusPage, t: Stamp) -> Result<(), Refusal>
    ensures { number_of result ≡ conflict_of (said_view view.entry) status.entry.bytes.now t }
{
    if t.expire != 0 {
        if t.expire == view.number {
            return Err(Refusal::OwnWrite);
        }
        return Err(another(status, t.expire));
    }
    if t.create == view.number {
        if t.cmd < view.statement {
            return Ok(());
        }
        return Err(Refusal::OwnWrite);
    }
    if view.sees(status, t.create) {
        return Ok(());
    }
    Err(another(status, t.create))
}
