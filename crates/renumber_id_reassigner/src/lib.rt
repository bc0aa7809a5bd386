// id_reassigner.rs: new numbers for the records of a tree. Numbers are counted as in the paper, the signed id plus 2^31, and
// stored as 32 bits. Member renumbering and type renumbering call each other; levels left and records left fall.
#![tactic(auto)]

ghost use Rattle.std.specs.Prelude.{◌+◌, ◌<◌, true, false};
ghost use Rattle.paper.specs.Bytes.{kind_at, kids_at, slots};
ghost use Rattle.paper.specs.Field.{is_map};
ghost use Rattle.renumber_id_reassigner.specs.Numbers.{Room, Given};

use record::{Siblings, kids_at, kind_at, turn};
use tree_walk::is_map;

// Where the renumbering goes on: at which slot, and with which number.
#[derive(Clone, Copy)]
pub struct Reassigned {
    pub next: usize,
    pub next_field_id: u32,
}

// The roots, the members of a struct or a list's element: siblings get the numbers from `first` on, in order, and their
// insides, in order, those that follow.
#[cycle(reassign)]
pub fn reassign_field_ids(
    recs: &[u8],
    row: Siblings,
    ids: &mut [u32; 1024],
    first: u32,
) -> Reassigned
    requires { Room recs.now row.levels row.count row.slot ids.old first }
    ensures { Given recs.now false row.levels row.count row.slot ids.old first
        result ids.new }
{
    let mut at = row.slot;
    let past = first + row.count;
    let mut inside = past;
    for own in first..past {
        ids[at] = turn(own);
        let after = reassign_ids_visit_type(recs, at, row.levels - 1, ids, inside);
        at = after.next;
        inside = after.next_field_id;
    }
    Reassigned {
        next: at,
        next_field_id: inside,
    }
}

// A map's key and value: each gets its number just before its inside.
#[cycle(reassign)]
fn reassign_key_and_value(
    recs: &[u8],
    row: Siblings,
    ids: &mut [u32; 1024],
    first: u32,
) -> Reassigned
    requires { Room recs.now row.levels row.count row.slot ids.old first }
    ensures { Given recs.now true row.levels row.count row.slot ids.old first
        result ids.new }
{
    let mut at = row.slot;
    let mut own = first;
    for passed in 0..row.count {
        ids[at] = turn(own);
        let after = reassign_ids_visit_type(recs, at, row.levels - 1, ids, own + 1);
        at = after.next;
        own = after.next_field_id;
    }
    Reassigned {
        next: at,
        next_field_id: own,
    }
}

// The inside of the record at `slot`, from `first` on.
#[cycle(reassign)]
pub fn reassign_ids_visit_type(
    recs: &[u8],
    slot: usize,
    levels: usize,
    ids: &mut [u32; 1024],
    first: u32,
) -> Reassigned
    requires { (slot < slots recs.now) × Room recs.now levels (kids_at recs.now slot)
        (slot + 1) ids.old first }
    ensures { Given recs.now (is_map (kind_at recs.now slot)) levels
        (kids_at recs.now slot) (slot + 1) ids.old first result ids.new }
{
    let members = kids_at(recs, slot);
    if members == 0 {
        return Reassigned {
            next: slot + 1,
            next_field_id: first,
        };
    }
    let inside = Siblings {
        slot: slot + 1,
        count: members,
        levels,
    };
    if is_map(kind_at(recs, slot)) {
        return reassign_key_and_value(recs, inside, ids, first);
    }
    reassign_field_ids(recs, inside, ids, first)
}
