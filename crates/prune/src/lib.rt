// Pruning, whole: from lent bytes to lent bytes.
#![tactic(auto)]

ghost use Rattle.std.specs.Prelude.{◌≡◌, [], ◌∷◌, length};
ghost use Rattle.paper.specs.Entries.{prune_entry};
ghost use Rattle.paper.specs.Outcome.{Answers, for_records, for_names};
ghost use Rattle.record.specs.Says.{changes};
ghost use Rattle.tree.specs.Says.{decoded};
ghost use Rattle.prune_marks.specs.Marks.{Unmarked};
ghost use Rattle.prune.specs.Steps.{opened, Tested, Decides};

use index::index_base;
use index_ids::IndexRows;
use paper::Role;
use plan::PlanRows;
use plan_write::write_plan;
use prune_columns::Choice;
use prune_marks::mark_chosen;
use record::{Refusal, Siblings, Sizes, Trees};
use record_limits::{room, sized_ids};
use tree::check_tree;

// Refusals 1 to 6, or the number of roots.
// Apart from renumber's `open`: this crate's wrong edit tree_as_additions stands on its text.
fn open(
    records: &[u8],
    pool: &[u8],
    selected: &[u8],
    room_records: usize,
    room_names: usize,
) -> Result<u32, Refusal>
    ensures { result ≡ decoded (opened records.now pool.now
        selected.now room_records room_names) }
{
    if !room(room_records, room_names) {
        return Err(Refusal {
            number: 1, // refusal 1
            list: 0,
            place: 0,
        });
    }
    if !sized_ids::<1024>(records, pool, selected) {
        return Err(Refusal {
            number: 2, // refusal 2
            list: 0,
            place: 0,
        });
    }
    check_tree(records, pool, 0)
}

// Marks the chosen slots of a base that passed 7 and 8: refusal 20, or none.
fn decide(
    records: &[u8],
    selected: &[u8],
    full: bool,
    count: u32,
    plan: &PlanRows,
    index: &IndexRows,
    marks: &mut [u8; 1024],
) -> Result<(), Refusal>
    requires { Tested records.now count plan.now index.now × Unmarked marks.old }
    ensures { Decides records.now selected.now full count result
        marks.new }
{
    mark_chosen(selected, plan, index, records.len() / 24, marks);
    let choice = Choice {
        records,
        marks,
        full,
    };
    let roots = Siblings {
        slot: 0,
        count,
        levels: 16,
    };
    choice.check_direct(roots, Role::Member)?;
    Ok(())
}

// Prunes a tree of records to what is chosen.
pub fn prune<'a>(
    records: &'a [u8],
    pool: &'a [u8],
    selected: &[u8],
    full: bool,
    out_records: &mut [u8],
    out_names: &mut [u8],
) -> Result<Sizes, Refusal>
    ensures { Answers changes
        (prune_entry records.now pool.now selected.now full
        (length out_records.old) (length out_names.old))
        (for_records out_records.old ∷ for_names out_names.old ∷ []) result
        (out_records.new ∷ out_names.new ∷ []) }
{
    // open: 1 to 6
    let count = open(records, pool, selected, out_records.len(), out_names.len())?;
    let trees = Trees::alone(records, pool);
    let mut plan = PlanRows::empty();
    let mut index = [[0u16; 1024]; 8];
    // test: 7 and 8, with the base as its own plan
    index_base(&trees, records.len() / 24, b"", &mut plan, &mut index)?;
    // decide: what is chosen, and 20
    let mut marks = [0u8; 1024];
    decide(records, selected, full, count, &plan, &index, &mut marks)?;
    // plan: what is kept, over the base's plan
    let choice = Choice {
        records,
        marks: &marks,
        full,
    };
    let roots = Siblings {
        slot: 0,
        count,
        levels: 16,
    };
    let kept = choice.project_fields(roots, &mut plan, 0);
    // write
    let names = write_plan(&trees, &plan, kept.at, out_records, out_names);
    Ok(Sizes {
        records: kept.at as u32,
        names: names as u32,
        last_id: 0,
        visited: 0,
    })
}
