// Withdraw ("01, Writes, withdrawal, sweep", "01, When the desk says no"): all rows are looked at before the first byte is written.
// The areas are lent apart, as C lends them: a call writes some of them and only reads others.
#![tactic(auto)]

ghost use Rattle.std.specs.Prelude.{◌≡◌, ◌<◌};
ghost use Rattle.ground.specs.Does.{Does};
ghost use Rattle.kind.specs.Kind.{rows};
ghost use Rattle.kind.specs.Areas.{areas, both};
ghost use Rattle.words.specs.Words.{desk_in, Desks};
ghost use Rattle.admit.specs.Admit.{said};
ghost use Rattle.undoing.specs.Undoing.{some_broken, undone_from, withdraw_rule};

use answer::Refusal;
use chain::Link;
use desk::Desk;
use putback::Since;
use status::Status;
use words::Words;

// Whether in some row "a break [is] met between a slot created by S and the first version not created by S". A chain that leads to an
// entry already passed goes round, until as many copies as there are entries were looked at. The rows are counted by hand, since the answer
// comes from both loops by the label, the form that 01 names for it.
fn is_broken(data: &[u8], undo: &[u8], since: Since) -> bool
    requires { 0 < since.number }
    ensures { result ≡ some_broken since.number since.statement «data».now undo.now }
{
    let rows = kind::rows(data);
    let most = kind::entries(undo);
    let mut r = 0;
    'rows: loop {
        if r >= rows {
            break 'rows false;
        }
        let m = records::slot::read_slot(data, r);
        let own = since.is(m.create, m.cmd);
        if own {
            let mut ptr = m.undo_ptr;
            let mut looked = 1;
            loop {
                let l = chain::follow(undo, r, ptr);
                match l {
                    Link::End => break,
                    Link::Break => break 'rows true,
                    Link::To(_, n) => {
                        let copy = n.copy;
                        if looked > most {
                            break 'rows true;
                        }
                        let still = since.is(copy.create, copy.cmd);
                        if !still {
                            break;
                        }
                        ptr = copy.undo_ptr;
                        looked += 1;
                    }
                }
            }
        }
        r += 1;
    }
}

// Withdraws from every row.
fn undo_rows(data: &mut [u8], undo: &mut [u8], since: Since)
    requires { 0 < since.number }
    ensures { both «data».new undo.new ≡ undone_from since.number since.statement 0 (rows «data».old) (both «data».old undo.old) }
{
    for r in 0..kind::rows(data) {
        putback::undo_row(data, undo, r, since);
    }
}

// Withdraws a session: its status becomes 10, it is closed, and what it wrote is taken back.
#[tactic(auto, using(crate::proofs::Calls::withdraw_refused, crate::proofs::Calls::withdraw_6, crate::proofs::Calls::withdraw_0, admit::proofs::Admissions::admits, admit::proofs::Admissions::admits_from, admit::proofs::Admissions::admits_place, admit::proofs::Admissions::admits_session, admit::proofs::Admissions::admits_status))]
pub fn withdraw(
    data: &mut [u8],
    undo: &mut [u8],
    status: &mut [u8],
    desk: &mut Words,
    session: u64,
) -> Result<(), Refusal>
    ensures does { Does (withdraw_rule (areas «data».old undo.old status.old) (desk_in desk.old) session) (said result desk.new) (areas «data».new undo.new status.new) }
    ensures desks { Desks desk.old desk.new }
{
    let k = admit::admit(data.len(), undo.len(), status.len(), desk, session)?;
    let since = Since {
        number: session,
        statement: Desk::FIRST_STATEMENT,
    };
    if is_broken(data, undo, since) {
        return Err(Refusal::Broken);
    }
    undo_rows(data, undo, since);
    status::put_status(status, session as usize, Status::Withdrawn);
    let new = words::desk_in(desk).withdraw(k);
    words::put_desk(desk, &new);
    Ok(())
}
