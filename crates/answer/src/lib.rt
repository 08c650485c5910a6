// What a call answers where it refuses: a name for each number of document 01's table ("01, When the desk says no") and for those
// that document 02 adds. A call that is done answers what it has to say, and its number is 0.
#![tactic(auto)]

ghost use Rattle.std.specs.Prelude.{◌≡◌};
ghost use Rattle.answer.specs.Code.{code_of, number_of};

#[derive(Clone, Copy, PartialEq, Eq)]
pub enum Refusal {
    // 1: an area's length isn't allowed
    BadLength,
    // 2: desk unsound
    Unsound,
    // 3: a header or the status of a number is wrong
    BadPages,
    // 4: session not open
    NotOpen,
    // 5: row or first row too large, or body not 32 bytes
    BadArgument,
    // 6: broken chain
    Broken,
    // 7: no version there
    NotThere,
    // 8: written by the session itself in this statement, or deleted by it
    OwnWrite,
    // 9: written by another that is not committed
    InWork,
    // 10: written by another that is committed and not seen
    Conflict,
    // 11: no empty slot, or no free entry
    NoRoom,
    // 12: 16 sessions open
    TooManyOpen,
    // 13: the numbers are used up
    NumbersUsed,
    // 14: the statements of the session are used up
    StatementsUsed,
    // 15: a session is open
    StillOpen,
    // 16: the line of a script is ill-formed
    IllFormed,
    // 17: a version looked at names a number of status 11, told between 6 and 7
    InDoubt,
    // 18: session spoiled by an earlier 10, told directly after 4
    Spoiled,
}

// The number that the paper gives a refusal.
impl From<Refusal> for u32 {
    ghost from_gives = { λ refusal code. code ≡ code_of refusal };

    fn from(refusal: Refusal) -> u32 {
        match refusal {
            Refusal::BadLength => 1,
            Refusal::Unsound => 2,
            Refusal::BadPages => 3,
            Refusal::NotOpen => 4,
            Refusal::BadArgument => 5,
            Refusal::Broken => 6,
            Refusal::NotThere => 7,
            Refusal::OwnWrite => 8,
            Refusal::InWork => 9,
            Refusal::Conflict => 10,
            Refusal::NoRoom => 11,
            Refusal::TooManyOpen => 12,
            Refusal::NumbersUsed => 13,
            Refusal::StatementsUsed => 14,
            Refusal::StillOpen => 15,
            Refusal::IllFormed => 16,
            Refusal::InDoubt => 17,
            Refusal::Spoiled => 18,
        }
    }
}

// The number that the paper gives what a call answers, "0: done".
pub fn code<T>(answer: &Result<T, Refusal>) -> u32
    ensures { result ≡ number_of answer.now }
{
    match answer {
        Ok(_) => 0,
        Err(refusal) => u32::from(*refusal),
    }
}
