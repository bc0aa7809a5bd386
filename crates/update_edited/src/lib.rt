// The edits, one at a time: refusals 23, 24, 13 and 26, or the marks that they leave on slots of the base.
#![tactic(auto)]

ghost use Rattle.record.specs.Trees.{trees_in};
ghost use Rattle.update_dropped.specs.Set.{dropped_ids};
ghost use Rattle.update_edited.specs.Editing.{Editable, all_edited, EditsBy, EditsIn};

use index::look_name;
use index_ids::IndexRows;
use plan::PlanRows;
use record::{Refusal, Trees};
use record_entries::edit_path_at;
use update_dropped::Dropped;
use update_edits::{Marks, edit_one, put_edit};
use update_rebuild::{Decisions, Given};

// All edits, in their order, where these ids are dropped.
fn edit_all<'a>(
    trees: &Trees<'a>,
    given: Given,
    plan: &PlanRows,
    index: &IndexRows,
    dropped: &Dropped,
    marks: &mut Marks,
) -> Result<(), Refusal>
    requires { Editable (trees_in trees.now) given plan.now index.now marks.old }
    ensures { EditsBy result (all_edited (trees_in trees.now) given
        plan.now (dropped_ids dropped.now))
        (trees_in trees.now) given.base marks.new }
{
    let edits = trees.edits;
    for k in 0..given.edits {
        let path = edit_path_at(trees.request_pool, edits, k);
        let found = look_name(trees, plan, given.base, index, path);
        let slot = edit_one(
            found,
            trees,
            given.base,
            index,
            given.version,
            k,
            dropped,
            marks,
        )?;
        put_edit(marks, slot.0, edits, k);
    }
    Ok(())
}

// The edits of a request whose deletions and additions are decided: refusals 23, 24, 13 and 26, or their marks.
pub fn edit_columns<'a>(
    trees: &Trees<'a>,
    given: Given,
    plan: &PlanRows,
    index: &IndexRows,
    decisions: &Decisions,
    marks: &mut Marks,
) -> Result<(), Refusal>
    requires { Editable (trees_in trees.now) given plan.now index.now marks.old }
    ensures { EditsIn (trees_in trees.now) given plan.now
        decisions.now result marks.new }
{
    if given.edits == 0 {
        return Ok(());
    }
    let mut dropped = Dropped::none();
    dropped.fill(&decisions.drops, given.deletions);
    edit_all(trees, given, plan, index, &dropped, marks)
}
