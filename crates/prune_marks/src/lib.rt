// The chosen ids of prune_columns.rs, as marks on slots: linear time, by the index of ids.
#![tactic(auto)]

ghost use Rattle.std.specs.Prelude.{◌≡◌, ◌≤◌};
ghost use Rattle.plan.specs.Table.{numbers};
ghost use Rattle.index_ids.specs.Chain.{Below};
ghost use Rattle.index_ids.specs.Path.{IdsChained};
ghost use Rattle.prune_marks.specs.Marks.{mark_at, Unmarked, DistinctIds, Marks};

use index_ids::{IndexRows, find_id};
use plan::PlanRows;
use record::Slot;
use record_entries::id_at;

// Marks a slot that was found.
fn mark(marks: &mut [u8; 1024], found: Option<Slot>)
    requires { Below found }
    ensures { marks.new ≡ mark_at found marks.old }
{
    let Some(slot) = found else {
        return;
    };
    marks[slot.0] = 1;
}

// Marks those of m slots whose ids are chosen. An unknown id marks none.
pub fn mark_chosen(
    selected: &[u8],
    plan: &PlanRows,
    index: &IndexRows,
    m: usize,
    marks: &mut [u8; 1024],
)
    requires { (m ≤ 1024) × (IdsChained (numbers plan.now) index.now m
        × (DistinctIds (numbers plan.now) m × Unmarked marks.old)) }
    ensures { Marks selected.now (numbers plan.now) m
        marks.new }
{
    let n = selected.len() / 4;
    for i in 0..n {
        mark(marks, find_id(plan, index, m, id_at(selected, i)));
    }
}
