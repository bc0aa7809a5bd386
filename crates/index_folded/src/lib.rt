// The look-up that forgets case, beside the exact one of `index` (02, 1/13): full names, then short ones; refusal 21 where two match at
// the same level.
#![tactic(auto)]

ghost use Rattle.std.specs.Prelude.{◌≡◌};
ghost use Rattle.paper.specs.Entries.{find_folded};
ghost use Rattle.paper.specs.Folded.{look_folded};
ghost use Rattle.record.specs.Says.{looked};
ghost use Rattle.record.specs.Trees.{trees_in};
ghost use Rattle.plan.specs.Named.{SourcesIn};
ghost use Rattle.plan.specs.Table.{numbers, PlanIn, fields_in};
ghost use Rattle.index_folded_names.specs.Met.{level};
ghost use Rattle.index_folded.specs.Told.{is_none, Small, told};

use index::{index_base, with_id};
use index_folded_names::meet_row;
use index_turns::Inside;
use paper::Role;
use plan::PlanRows;
use record::{FieldId, Refusal, Siblings, Slot, Trees, has_dot};
use std::ops::ControlFlow;
use tree::read_tree;

// All rows, by their full names or by their short ones.
fn meet_all<'a>(
    trees: &Trees<'a>,
    plan: &PlanRows,
    m: usize,
    short: bool,
    name: &[u8],
) -> ControlFlow<Slot, (Slot, Option<Slot>)>
    requires { SourcesIn (trees_in trees.now) plan.now m }
    ensures { result ≡ level (trees_in trees.now) plan.now m short
        name.now }
{
    let row = Siblings {
        slot: 0,
        count: m as u32,
        levels: 16,
    };
    let roots = Inside {
        role: Role::Member,
        pos: 0,
    };
    meet_row(trees, plan, m, row, roots, short, name, None)
}

// Whether a walk met no match.
fn none_met(met: ControlFlow<Slot, (Slot, Option<Slot>)>) -> bool
    ensures { result ≡ is_none met }
{
    match met {
        ControlFlow::Break(_) => false,
        ControlFlow::Continue((_, one)) => one.is_none(),
    }
}

// The one match with its id, or nothing; or refusal 21, with the slot of the second.
fn tell(
    plan: &PlanRows,
    met: ControlFlow<Slot, (Slot, Option<Slot>)>,
) -> Result<Option<(FieldId, Slot)>, Refusal>
    requires { Small met }
    ensures { result ≡ told (numbers plan.now) met }
{
    match met {
        ControlFlow::Break(second) => Err(Refusal {
            number: 21,
            list: 0,
            place: second.0 as u32,
        }),
        ControlFlow::Continue((_, one)) => Ok(with_id(plan, one)),
    }
}

// The only record whose full name folds as the asked name does; where there is none, the only one whose short name does, which has
// a dot where it is no full name.
pub fn look_folded<'a>(
    trees: &Trees<'a>,
    plan: &PlanRows,
    m: usize,
    name: &[u8],
) -> Result<Option<(FieldId, Slot)>, Refusal>
    requires { PlanIn (trees_in trees.now) plan.now m }
    ensures { result ≡ looked (look_folded
        (fields_in (trees_in trees.now) plan.now m) name.now) }
{
    let full = meet_all(trees, plan, m, false, name);
    if !none_met(full) {
        return tell(plan, full);
    }
    if !has_dot(name) {
        return tell(plan, full);
    }
    tell(plan, meet_all(trees, plan, m, true, name))
}

// 2 to 8, then the look-up that forgets case, in any bytes.
pub fn find_folded<'a>(
    records: &'a [u8],
    pool: &'a [u8],
    name: &[u8],
) -> Result<Option<(FieldId, Slot)>, Refusal>
    ensures { result ≡ looked (find_folded records.now pool.now
        name.now) }
{
    read_tree(records, pool)?;
    let trees = Trees::alone(records, pool);
    let n = records.len() / 24;
    let mut plan = PlanRows::empty();
    let mut index = [[0u16; 1024]; 8];
    index_base(&trees, n, b"", &mut plan, &mut index)?;
    look_folded(&trees, &plan, n, name)
}
