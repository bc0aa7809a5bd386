// Many ids looked up at once, in a tree that is tested once (02, 2/13): refusals 1 to 8, then the slot of each id.
#![tactic(auto)]

ghost use Rattle.std.specs.Prelude.{◌≡◌, [], ◌∷◌, length};
ghost use Rattle.paper.specs.Entries.{find_ids};
ghost use Rattle.paper.specs.Outcome.{for_slots, Answers};
ghost use Rattle.index_ids.specs.Chain.{Below};
ghost use Rattle.index_many.specs.Many.{searches, slot_word, met_one, Searchable, ByIds};

use index::index_base;
use index_ids::{IndexRows, find_id};
use plan::{PlanRows, put_bytes};
use record::{Refusal, Slot, Trees, word_bytes};
use record_entries::id_at;
use record_limits::whole_list;
use tree::read_tree;

// A found slot as 32 bits; 4,294,967,295 for none.
fn slot_word(found: Option<Slot>) -> u32
    requires { Below found }
    ensures { result ≡ slot_word found }
{
    match found {
        None => 4294967295,
        Some(slot) => slot.0 as u32,
    }
}

// 1 for a slot that was found.
fn met_one(found: Option<Slot>) -> u32
    ensures { result ≡ met_one found }
{
    match found {
        None => 0,
        Some(_) => 1,
    }
}

// Writes the slot of each id among the m planned records, four bytes each. Answers how many were found.
fn look_ids(plan: &PlanRows, m: usize, index: &IndexRows, ids: &[u8], out: &mut [u8]) -> u32
    requires { Searchable plan.now m index.now ids.now out.old }
    ensures { ByIds plan.now m ids.now result out.old
        out.new }
{
    let n = ids.len() / 4;
    let mut met = 0;
    for i in 0..n {
        let found = find_id(plan, index, m, id_at(ids, i));
        put_bytes(out, i * 4, &word_bytes(slot_word(found)));
        met += met_one(found);
    }
    met
}

// The slot of each id in any bytes, 4,294,967,295 where there is none, and how many of the ids were found. The tree is tested once,
// for all ids. Refusal 1 if there is no room, 2 if the ids are not whole or too many, then 2 to 8 of the tree.
pub fn find_ids<'a>(
    records: &'a [u8],
    pool: &'a [u8],
    ids: &[u8],
    out_slots: &mut [u8],
) -> Result<u32, Refusal>
    ensures { Answers searches
        (find_ids records.now pool.now ids.now
        (length out_slots.old)) (for_slots out_slots.old ∷ []) result
        (out_slots.new ∷ []) }
{
    if out_slots.len() < ids.len() {
        return Err(Refusal {
            number: 1, // refusal 1
            list: 0,
            place: 0,
        });
    }
    if !whole_list(ids, 4, 1024) {
        return Err(Refusal {
            number: 2, // refusal 2
            list: 0,
            place: 0,
        });
    }
    read_tree(records, pool)?;
    let trees = Trees::alone(records, pool);
    let n = records.len() / 24;
    let mut plan = PlanRows::empty();
    let mut index = [[0u16; 1024]; 8];
    index_base(&trees, n, b"", &mut plan, &mut index)?;
    Ok(look_ids(&plan, n, &index, ids, out_slots))
}
