// Renumbering, whole: from lent bytes to lent bytes.
#![tactic(auto)]

ghost use Rattle.std.specs.Prelude.{◌≡◌, [], ◌∷◌, length};
ghost use Rattle.paper.specs.Entries.{renumber_entry};
ghost use Rattle.paper.specs.Outcome.{for_records, for_names, for_identifiers, Answers};
ghost use Rattle.record.specs.Says.{changes};
ghost use Rattle.tree.specs.Says.{decoded};
ghost use Rattle.renumber.specs.Opening.{opened};

use index::index_base;
use plan::PlanRows;
use plan_write::write_plan;
use record::{Refusal, Siblings, Sizes, Trees, turn};
use record_limits::{room_with_identifiers, sized_ids};
use renumber_id_reassigner::reassign_field_ids;
use renumber_identifiers::{apply_to_identifier_fields, find_identifiers};
use tree::check_tree;

// Refusals 1 to 6, or the number of roots. Apart from prune's `open`: a wrong edit stands on the text of that.
fn open(
    records: &[u8],
    pool: &[u8],
    identifiers: &[u8],
    room_records: usize,
    room_names: usize,
    room_identifiers: usize,
) -> Result<u32, Refusal>
    ensures { result ≡ decoded (opened records.now pool.now
        identifiers.now room_records room_names room_identifiers) }
{
    if !room_with_identifiers(
        room_records,
        room_names,
        identifiers.len(),
        room_identifiers,
    ) {
        return Err(Refusal {
            number: 1, // refusal 1
            list: 0,
            place: 0,
        });
    }
    if !sized_ids::<64>(records, pool, identifiers) {
        return Err(Refusal {
            number: 2, // refusal 2
            list: 0,
            place: 0,
        });
    }
    check_tree(records, pool, 0)
}

// Renumbers a tree of records from `start` on, and maps its identifiers.
pub fn renumber<'a>(
    records: &'a [u8],
    pool: &'a [u8],
    identifiers: &[u8],
    start: u32,
    out_records: &mut [u8],
    out_names: &mut [u8],
    out_identifiers: &mut [u8],
) -> Result<Sizes, Refusal>
    ensures { Answers changes
        (renumber_entry records.now pool.now identifiers.now start
        (length out_records.old) (length out_names.old)
        (length out_identifiers.old))
        (for_records out_records.old ∷ for_names out_names.old
        ∷ for_identifiers out_identifiers.old ∷ []) result (out_records.new
        ∷ out_names.new ∷ out_identifiers.new ∷ []) }
{
    // open: 1 to 6
    let count = open(
        records,
        pool,
        identifiers,
        out_records.len(),
        out_names.len(),
        out_identifiers.len(),
    )?;
    // test: 7 to 9
    let trees = Trees::alone(records, pool);
    let n = records.len() / 24;
    let mut plan = PlanRows::empty();
    let mut index = [[0u16; 1024]; 8];
    index_base(&trees, n, identifiers, &mut plan, &mut index)?;
    // decide: 18
    let first = turn(start);
    if 4294967295 - n < first as usize {
        return Err(Refusal {
            number: 18, // refusal 18
            list: 0,
            place: 0,
        });
    }
    // plan: the new ids. The index finds a record by its old id, so the identifiers' slots are looked up before
    let mut slots = [0u16; 64];
    find_identifiers(identifiers, &plan, &index, n, &mut slots);
    let roots = Siblings {
        slot: 0,
        count,
        levels: 16,
    };
    reassign_field_ids(records, roots, &mut plan.numbers, first);
    apply_to_identifier_fields(identifiers.len() / 4, &slots, &plan, out_identifiers);
    // write
    let names = write_plan(&trees, &plan, n, out_records, out_names);
    Ok(Sizes {
        records: n as u32,
        names: names as u32,
        last_id: 0,
        visited: 0,
    })
}
