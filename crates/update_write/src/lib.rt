// The end of an update: the rebuilt tree planned, its limits and its own tests, and the answer written.
#![tactic(auto)]

ghost use Rattle.std.specs.Prelude.{◌≡◌};
ghost use Rattle.paper.specs.Forest.{mapped};
ghost use Rattle.record.specs.Trees.{trees_in};
ghost use Rattle.plan.specs.Table.{Roomy};
ghost use Rattle.update_dropped.specs.Set.{dropped_ids};
ghost use Rattle.update_edits.specs.Marks.{Unmarked, remark};
ghost use Rattle.update_rebuild.specs.Sources.{rebuilt_base, passed_base};
ghost use Rattle.update_rebuild.specs.Planned.{additions_in, Based, Rebuilds};
ghost use Rattle.update_write.specs.Ending.{Rebuildable, Ends};

use index::index_plan;
use index_ids::{IndexRows, refresh};
use plan::{PlanRows, names_fit};
use plan_write::write_plan;
use record::{Refusal, Sizes, Trees, turn_back};
use update_dropped::Dropped;
use update_edits::{Marks, mark_plan};
use update_rebuild::{Decisions, Given, Place, Rebuilder};

// What is to be written: how much a request has, the number of the base's roots, and what was decided.
#[derive(Clone, Copy)]
pub struct Changeset<'a> {
    pub given: Given,
    pub roots: u32,
    pub decisions: &'a Decisions,
    pub marks: &'a Marks,
}

// The base rebuilt, its columns as the edits leave them. `None`: record 1,025 or level 17 would be planned (refusal 19).
fn rebuild_edited<'a>(
    rebuilder: &Rebuilder<'a>,
    roots: u32,
    marks: &Marks,
    plan: &mut PlanRows,
) -> Option<Place>
    requires { Based rebuilder.now.records.now rebuilder.now.given.base roots
        × Roomy plan.old × (rebuilder.now.given.edits ≡ 0 → Unmarked marks.now) }
    ensures { Rebuilds (mapped (remark marks.now)
        (rebuilt_base rebuilder.now.records.now rebuilder.now.given.base
        (dropped_ids rebuilder.now.dropped.now)
        (additions_in rebuilder.now.added.now rebuilder.now.given
        rebuilder.now.decisions.now)))
        (passed_base rebuilder.now.records.now rebuilder.now.given.base
        (dropped_ids rebuilder.now.dropped.now))
        rebuilder.now.given.base plan.old result plan.new }
{
    let place = rebuilder.rebuild(roots, plan)?;
    if rebuilder.given.edits == 0 {
        return Some(place);
    }
    mark_plan(plan, place.at, marks);
    Some(place)
}

// Rebuilds the base as it was decided, and writes it: refusal 19, then 7 to 9 of the rebuilt tree; on a refusal no byte changes. What
// the two tables held is gone then.
pub fn write_rebuilt<'a, 'b>(
    trees: &Trees<'a>,
    identifiers: &[u8],
    changes: &Changeset<'b>,
    plan: &mut PlanRows,
    index: &mut IndexRows,
    out_records: &mut [u8],
    out_names: &mut [u8],
) -> Result<Sizes, Refusal>
    requires { Rebuildable (trees_in trees.now) identifiers.now changes.now.given
        changes.now.roots changes.now.decisions.now changes.now.marks.now plan.old index.old
        out_records.old out_names.old }
    ensures { Ends (trees_in trees.now) identifiers.now changes.now.given
        changes.now.decisions.now changes.now.marks.now out_records.old
        out_names.old result out_records.new out_names.new }
{
    let given = changes.given;
    let over = Refusal {
        number: 19,
        list: 4,
        place: 0,
    };
    // plan
    let mut dropped = Dropped::none();
    dropped.fill(&changes.decisions.drops, given.deletions);
    let rebuilder = Rebuilder {
        records: trees.records,
        added: trees.added_records,
        given,
        dropped: &dropped,
        decisions: changes.decisions,
    };
    let Some(place) = rebuild_edited(&rebuilder, changes.roots, changes.marks, plan) else {
        // records or levels
        return Err(over);
    };
    let m = place.at;
    if !names_fit(trees, plan, m) {
        // the name sum
        return Err(over);
    }
    // test, in the table that held the base's index
    refresh(index);
    index_plan(trees, plan, m, 4, identifiers, index)?;
    // write
    let names = write_plan(trees, plan, m, out_records, out_names);
    Ok(Sizes {
        records: m as u32,
        names: names as u32,
        last_id: turn_back(given.last),
        visited: place.visited,
    })
}
