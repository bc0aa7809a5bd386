// Where an addition goes: the struct that receives it, and whether a member of it has the name.
#![tactic(auto)]

ghost use Rattle.std.specs.Prelude.{◌≡◌, true, not, ◌&&◌, ◌+◌, ◌*◌, ◌≤◌, ◌<◌, length};
ghost use Rattle.std.proofs.Math.Option.{none};
ghost use Rattle.tree.specs.Read.{Standing};
ghost use Rattle.update_dropped.specs.Set.{dropped_ids};
ghost use Rattle.paper.specs.Answer.{among, same, lowest};
ghost use Rattle.paper.specs.Bytes.{turned, rec_at, kids_at, name_of, ok_bytes, in_pool};
ghost use Rattle.paper.specs.Update.{member_taken};
ghost use Rattle.update_parents.specs.Target.{struct_at, value_slot, receiving, targeted, members_at};

use paper::{Kind, is_struct};
use record::{FieldId, Slot, equal, id_bits_at, kids_at, kind_at, name_at};
use tree::tree_end;
use update_dropped::Dropped;

// The struct at a slot, or nothing.
#[tactic(auto, using(crate::proofs::Receiving::some_struct))]
fn as_struct(recs: &[u8], slot: usize) -> Option<Slot>
    requires { slot * 24 + 24 ≤ length recs.now }
    ensures { result ≡ targeted (struct_at recs.now slot) }
{
    is_struct(kind_at(recs, slot)).then_some(Slot(slot))
}

// A map's value: it comes after the key and the key's inside.
fn value_at(recs: &[u8], n: usize, slot: usize) -> usize
    requires { Standing 0 recs.now n 15 slot × (kids_at recs.now slot ≡ 2) }
    ensures { (result ≡ value_slot recs.now n slot) × (result < n) }
{
    tree_end(recs, n, slot + 1, 14, 0)
}

// One step from a parent to the struct that receives the addition: itself, a list's element, a map's value; or nothing (refusal 16).
#[tactic(auto, using(crate::proofs::Receiving::resolving))]
pub fn resolve_parent_target(recs: &[u8], n: usize, slot: usize) -> Option<Slot>
    requires { Standing 0 recs.now n 15 slot × (ok_bytes recs.now slot ≡ true) }
    ensures { result ≡ targeted (receiving recs.now n slot) }
{
    match kind_at(recs, slot) {
        Kind::Primitive => None,
        Kind::Structure => Some(Slot(slot)),
        Kind::Listing => as_struct(recs, slot + 1),
        Kind::Mapping => as_struct(recs, value_at(recs, n, slot)),
    }
}

// Whether a record has the name and is not dropped.
fn takes(recs: &[u8], pool: &[u8], slot: usize, name: &[u8], dropped: &Dropped) -> bool
    requires { (slot * 24 + 24 ≤ length recs.now)
        × (in_pool (length pool.now) recs.now slot ≡ true) }
    ensures { result ≡ (same (name_of pool.now recs.now slot)
        name.now && not (among (turned (rec_at recs.now slot).id) (dropped_ids dropped.now))) }
{
    equal(name_at(pool, recs, slot), name) && !dropped.holds(FieldId(id_bits_at(recs, slot)))
}

// Whether a member of the struct at a slot has the name and is not dropped: refusal 17.
#[tactic(auto, using(crate::proofs::Members::scanning))]
pub fn name_taken(
    recs: &[u8],
    pool: &[u8],
    n: usize,
    slot: usize,
    name: &[u8],
    dropped: &Dropped,
) -> bool
    requires { Standing 0 recs.now n 15 slot
        × (lowest (in_pool (length pool.now) recs.now) 0 n ≡ none) }
    ensures { result ≡ member_taken (members_at pool.now recs.now n slot)
        name.now (dropped_ids dropped.now) }
{
    let mut at = slot + 1;
    for _ in 0..kids_at(recs, slot) {
        if takes(recs, pool, at, name, dropped) {
            return true;
        }
        at = tree_end(recs, n, at, 14, 0);
    }
    false
}
