// What every session call asks first: lengths allowed, desk sound, session open ("01, When the desk says no", 1, 2 and 4), and those that
// change something, that the session is not spoiled ("02, T-07", 18). The desk is lent as its words, and no copy of it is made.
#![tactic(auto)]

ghost use Rattle.std.specs.Prelude.{◌≡◌};
ghost use Rattle.words.specs.Words.{desk_in};
ghost use Rattle.admit.specs.Admit.{admit_of, unspoiled_of};

use answer::Refusal;
use words::Words;

// The place on the desk that these words say at which session x is admitted to areas of these lengths, or the refusal. No session is 0.
#[tactic(auto, using(crate::proofs::Admits::admit_of_1, crate::proofs::Admits::admit_of_2, crate::proofs::Admits::admit_of_zero, crate::proofs::Admits::admit_of_found))]
pub fn admit(d: usize, u: usize, s: usize, desk: &Words, x: u64) -> Result<usize, Refusal>
    ensures { result ≡ admit_of d u s (desk_in desk.now) x }
{
    if !kind::lengths_ok(d, u, s) {
        return Err(Refusal::BadLength);
    }
    if !words::is_sound(desk) {
        return Err(Refusal::Unsound);
    }
    if x == 0 {
        return Err(Refusal::NotOpen);
    }
    words::find(desk, x).ok_or(Refusal::NotOpen)
}

// Admits session x where it is not spoiled: "insert, update, delete, next and commit answer 18, directly after 4".
#[tactic(auto, using(crate::proofs::Admits::admit_of_place, crate::proofs::Admits::unspoiled_refused, crate::proofs::Admits::unspoiled_18, crate::proofs::Admits::unspoiled_at))]
pub fn admit_unspoiled(d: usize, u: usize, s: usize, desk: &Words, x: u64) -> Result<usize, Refusal>
    ensures { result ≡ unspoiled_of d u s (desk_in desk.now) x }
{
    let k = admit(d, u, s, desk, x)?;
    if words::is_spoiled(desk, k) {
        return Err(Refusal::Spoiled);
    }
    Ok(k)
}
