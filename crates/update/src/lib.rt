// The update, whole: from lent bytes to lent bytes.
#![tactic(auto)]

ghost use Rattle.std.specs.Prelude.{◌≡◌, [], ◌∷◌, length, ◌<◌};
ghost use Rattle.paper.specs.Bytes.{turned};
ghost use Rattle.paper.specs.Entries.{update_entry};
ghost use Rattle.paper.specs.Outcome.{for_records, for_names, Answers};
ghost use Rattle.record.specs.Says.{changes};
ghost use Rattle.record.specs.Trees.{trees_in, lists_in, stored_in, lent_in};
ghost use Rattle.update.specs.Updating.{given_in, Decidable, Settles};

use index::index_base;
use index_ids::IndexRows;
use plan::PlanRows;
use record::{Lists, Refusal, Sizes, Trees, turn};
use update_edited::edit_columns;
use update_edits::Marks;
use update_rebuild::{Decisions, Given};
use update_request::open_update;
use update_schema::decide_changes;
use update_write::{Changeset, write_rebuilt};

// How much is lent, the last id plus 2^31, from its bits, and the format version.
fn given_of<'a>(trees: &Trees<'a>, lists: &Lists<'a>, last_id: u32, version: u32) -> Given
    ensures { (result ≡ given_in (trees_in trees.now) (lists_in lists.now)
        (turned last_id) version) × (result.last < 4294967296) }
{
    Given {
        base: trees.records.len() / 24,
        added: trees.added_records.len() / 24,
        deletions: lists.deletions.len() / 8,
        additions: lists.additions.len() / 8,
        edits: trees.edits.len() / 16,
        last: u64::from(turn(last_id)),
        version,
    }
}

// Decides all changes of a request that passed 1 to 9: refusal 10, then 11 to 18 and 22, then 23, 24, 13 and 26 of the edits; or what
// the rebuild needs, and the last id consumed.
fn decide<'a>(
    trees: &Trees<'a>,
    lists: &Lists<'a>,
    given: Given,
    columns: u32,
    plan: &PlanRows,
    index: &IndexRows,
    decisions: &mut Decisions,
    marks: &mut Marks,
) -> Result<u64, Refusal>
    requires { Decidable (trees_in trees.now) (lists_in lists.now) given.last columns plan.now
        index.now decisions.old marks.old
        × (given ≡ given_in (trees_in trees.now) (lists_in lists.now) given.last given.version) }
    ensures { Settles (trees_in trees.now) (lists_in lists.now) given.last
        given.version result decisions.new marks.new }
{
    if columns as usize != given.additions {
        // refusal 10
        return Err(Refusal {
            number: 10,
            list: 3,
            place: 0,
        });
    }
    let consumed = decide_changes(trees, lists, given, plan, index, decisions)?;
    edit_columns(trees, given, plan, index, decisions, marks)?;
    Ok(consumed)
}

// Updates a schema: drops, adds and edits columns, rebuilds it. On a refusal no byte changes.
pub fn update<'a>(
    trees: &Trees<'a>,
    lists: &Lists<'a>,
    last_id: u32,
    version: u32,
    out_records: &mut [u8],
    out_names: &mut [u8],
) -> Result<Sizes, Refusal>
    ensures { Answers changes
        (update_entry (stored_in (trees_in trees.now) last_id)
        (lent_in (trees_in trees.now) (lists_in lists.now) version
        (length out_records.old) (length out_names.old)))
        (for_records out_records.old ∷ for_names out_names.old ∷ []) result
        (out_records.new ∷ out_names.new ∷ []) }
{
    // open
    let (roots, columns) = open_update(trees, lists, version, out_records.len(), out_names.len())?;
    let given = given_of(trees, lists, last_id, version);
    // test
    let mut plan = PlanRows::empty();
    let mut index = [[0u16; 1024]; 8];
    index_base(trees, given.base, lists.identifiers, &mut plan, &mut index)?;
    // decide
    let mut decisions = Decisions::none();
    let mut marks = [0u16; 1024];
    let last = decide(
        trees,
        lists,
        given,
        columns,
        &plan,
        &index,
        &mut decisions,
        &mut marks,
    )?;
    // plan, test, write
    let changes = Changeset {
        given: Given { last, ..given },
        roots,
        decisions: &decisions,
        marks: &marks,
    };
    write_rebuilt(
        trees,
        lists.identifiers,
        &changes,
        &mut plan,
        &mut index,
        out_records,
        out_names,
    )
}
