// The identifiers of a tree: refusal 9, of a column that an id finds and of those above it.
#![tactic(auto)]

ghost use Rattle.std.specs.Prelude.{◌≡◌, ◌≤◌, ◌<◌, length, get_or};
ghost use Rattle.paper.specs.Bytes.{turned};
ghost use Rattle.paper.specs.Rows.{look_id};
ghost use Rattle.paper.specs.Sound.{identifying, holding, identifies};
ghost use Rattle.record.specs.Trees.{trees_in};
ghost use Rattle.plan.specs.Plan.{source_field, Sits};
ghost use Rattle.plan.specs.Table.{sources, numbers, members, PlanIn, fields_in};
ghost use Rattle.index_ids.specs.Path.{IdsChained};
ghost use Rattle.index_ids.specs.Table.{ups_in};
ghost use Rattle.index_names.specs.Told.{Raised};
ghost use Rattle.index_identifiers.specs.Nine.{held_up, rule_9};

use index_ids::{IndexRows, UPS, cell, find_id};
use paper::{is_primitive, is_required, is_struct};
use plan::{PlanRows, planned_code, planned_flags, planned_kind};
use record::{Refusal, Slot, Trees};
use record_entries::id_at;

// Whether a planned record may identify: a primitive, required, neither float nor double.
fn identifying<'a>(trees: &Trees<'a>, source: u32) -> bool
    requires { Sits (trees_in trees.now) source }
    ensures { result ≡ identifying (source_field (trees_in trees.now) source) }
{
    let code = planned_code(trees, source);
    is_primitive(planned_kind(trees, source))
        & (is_required(planned_flags(trees, source)) & !((code == 5) | (code == 6)))
}

// Whether it may stand above an identifier: a struct, required.
fn holding<'a>(trees: &Trees<'a>, source: u32) -> bool
    requires { Sits (trees_in trees.now) source }
    ensures { result ≡ holding (source_field (trees_in trees.now) source) }
{
    is_struct(planned_kind(trees, source)) & is_required(planned_flags(trees, source))
}

// Whether all records above a slot may stand above an identifier. Each turn is a level up, and of
// 16 levels 15 are above, so `left` is never below 0. No `for`: a turn goes on at the place above.
fn held<'a>(trees: &Trees<'a>, plan: &PlanRows, m: usize, index: &IndexRows, slot: usize) -> bool
    requires { (slot < m) × PlanIn (trees_in trees.now) plan.now m
        × Raised (members plan.now) m (ups_in index.now) }
    ensures { result ≡ held_up (trees_in trees.now) (sources plan.now)
        (ups_in index.now) 15 (get_or (ups_in index.now) slot 0) }
{
    let mut place = cell(index, UPS, slot);
    let mut left = 15u32;
    while 0 < place {
        let k = place - 1;
        let above = cell(index, UPS, k);
        if !holding(trees, plan.sources[k]) {
            return false;
        }
        left -= 1;
        place = above;
    }
    true
}

// Whether an identifier finds a column that may identify.
fn identifies<'a>(trees: &Trees<'a>, plan: &PlanRows, m: usize, index: &IndexRows, id: u32) -> bool
    requires { PlanIn (trees_in trees.now) plan.now m
        × IdsChained (numbers plan.now) index.now m
        × Raised (members plan.now) m (ups_in index.now) }
    ensures { result ≡ identifies (look_id (fields_in (trees_in trees.now)
        plan.now m) (turned id)) }
{
    let Some(Slot(k)) = find_id(plan, index, m, id) else {
        return false;
    };
    if !identifying(trees, plan.sources[k]) {
        return false;
    }
    held(trees, plan, m, index, k)
}

// Refusal 9: the lowest identifier that finds no column that may identify.
pub fn check_identifiers<'a>(
    trees: &Trees<'a>,
    identifiers: &[u8],
    plan: &PlanRows,
    m: usize,
    index: &IndexRows,
) -> Result<(), Refusal>
    requires { (length identifiers.now ≤ 256) × PlanIn (trees_in trees.now) plan.now m
        × IdsChained (numbers plan.now) index.now m
        × Raised (members plan.now) m (ups_in index.now) }
    ensures { result ≡ rule_9 identifiers.now
        (fields_in (trees_in trees.now) plan.now m) }
{
    let n = identifiers.len() / 4;
    for i in 0..n {
        if !identifies(trees, plan, m, index, id_at(identifiers, i)) {
            return Err(Refusal {
                number: 9,
                list: 5,
                place: i as u32,
            });
        }
    }
    Ok(())
}
