// What insert, update and delete write, once nothing refuses them ("01, Writes, withdrawal, sweep"): each is composed of writes that
// touch, and writes no byte besides.
#![tactic(auto)]

ghost use Rattle.std.specs.Prelude.{◌≡◌, ◌<◌, ◌^◌, length};
ghost use Rattle.kind.specs.Kind.{rows, entries};
ghost use Rattle.writing.specs.Writing.{made, expired, inserted, updated_data, updated_undo, deleted};

use kind::Kind;
use pointer::Pointer;
use records::entry::Entry;
use records::slot::Slot;

// A version that the session makes: "create = S, cmd = its statement, other metadata 0", but for the pointer to what is older.
fn make(number: u64, statement: u32, older: Pointer) -> Slot
    ensures { result ≡ made number statement older.raw }
{
    Slot {
        create: number,
        expire: 0,
        undo_ptr: older.raw,
        cmd: statement,
        expire_cmd: 0,
    }
}

// A version that the session ends: its slot or copy with expire and expire_cmd set.
fn expire(m: Slot, number: u64, statement: u32) -> Slot
    ensures { result ≡ expired number statement m }
{
    Slot {
        expire: number,
        expire_cmd: statement,
        ..m
    }
}

// The new version of row r, in its empty slot.
#[tactic(auto, unfolding(crate::specs::Writing::inserted))]
pub fn insert_at(data: &mut [u8], r: usize, number: u64, statement: u32, body: &[u8])
    requires { (r < rows «data».old) × (length body.now ≡ 32) }
    ensures { «data».new ≡ inserted number statement r body.now «data».old }
{
    let m = make(number, statement, Pointer::NONE);
    touching::write_slot(data, r, m, body, number);
}

// "Update copies the slot to the lowest free entry, with writer = S and, in the copy, expire = S and expire_cmd = S's statement. The
// slot then has create = S, expire 0, a pointer to the entry, cmd = S's statement, expire_cmd 0, the new body." The old body goes
// from area to area, and nowhere between.
#[tactic(auto, using(records::proofs::Bodies::body_at_cut), unfolding(crate::specs::Writing::updated_undo, crate::specs::Writing::updated_data))]
pub fn update_at(
    data: &mut [u8],
    undo: &mut [u8],
    r: usize,
    e: usize,
    number: u64,
    statement: u32,
    body: &[u8],
)
    requires { (r < rows «data».old) × (r < 2 ^ 32) × (e < entries undo.old) × (e < 2 ^ 32) × (length body.now ≡ 32) }
    ensures leaves_undo { undo.new ≡ updated_undo number statement r e «data».old undo.old }
    ensures leaves_data { «data».new ≡ updated_data number statement r e body.now «data».old }
{
    let old = records::slot::read_slot(data, r);
    let entry = Entry {
        writer: number,
        row: r as u32,
        copy: expire(old, number, statement),
    };
    let at = Kind::DATA.place(r) + 32;
    touching::write_entry(undo, e, entry, &data[at..at + 32], number);
    let m = make(number, statement, Pointer::to(e));
    touching::write_slot(data, r, m, body, number);
}

// "Delete sets expire and expire_cmd."
#[tactic(auto, unfolding(crate::specs::Writing::deleted))]
pub fn delete_at(data: &mut [u8], r: usize, number: u64, statement: u32)
    requires { r < rows «data».old }
    ensures { «data».new ≡ deleted number statement r «data».old }
{
    let old = records::slot::read_slot(data, r);
    touching::write_meta(data, r, expire(old, number, statement), number);
}
