// Look-up of a short name: a walk that carries how much of the asked name is matched, and builds no name.
#![tactic(auto)]

ghost use Rattle.std.specs.Prelude.{◌≡◌, ◌≤◌, ◌<◌, length};
ghost use Rattle.paper.specs.Rows.{late};
ghost use Rattle.record.specs.Trees.{trees_in};
ghost use Rattle.plan.specs.Named.{names_in, kinds_in, SourcesIn};
ghost use Rattle.plan.specs.Walk.{walk_in};
ghost use Rattle.index_ids.specs.Chain.{held};
ghost use Rattle.index_turns.specs.Turn.{left_at};
ghost use Rattle.index_short_names.specs.Seek.{Turned, outcome, sighting};

use index_turns::{fit_at, inside_at, own_slot, row_next};
use paper::{Role, next_role};
use plan::PlanRows;
use record::{Siblings, Slot, Trees};
use std::ops::ControlFlow;

// What a search meets at a record: its members' role, where to look on inside it, and its own slot if its name is what is left.
#[derive(Clone, Copy)]
struct Turn {
    role: Role,
    pos: usize,
    me: Option<Slot>,
}

// Whether a record of this role waits for the row's end: a map's key and value do.
fn is_late(role: Role) -> bool
    ensures { result ≡ late role }
{
    matches!(role, Role::Key | Role::Value)
}

// The step: short names, with case.
fn turn_at<'a>(
    trees: &Trees<'a>,
    plan: &PlanRows,
    m: usize,
    at: usize,
    role: Role,
    x: &[u8],
    pos: usize,
) -> Turn
    requires { (at < m) × ((pos ≤ length x.now)
        × SourcesIn (trees_in trees.now) plan.now m) }
    ensures { Turned (names_in (trees_in trees.now) plan.now)
        (kinds_in (trees_in trees.now) plan.now) role
        x.now pos at result }
{
    let f = fit_at(trees, plan, m, at, false, x, pos);
    let inside = inside_at(trees, plan, m, at, role, true, f, x, pos);
    Turn {
        role: inside.role,
        pos: inside.pos,
        me: own_slot(f, at),
    }
}

// What a walk answers at the end of a row: the slot that waits, or else the one behind the row.
#[tactic(auto, unfolding(crate::specs::Seek::outcome))]
fn ended(wait: Option<Slot>, next: usize) -> ControlFlow<Slot, Slot>
    ensures { result ≡ outcome (held wait) next }
{
    match wait {
        Some(slot) => ControlFlow::Break(slot),
        None => ControlFlow::Continue(Slot(next)),
    }
}

// The record of a row of trees whose short name is what is left of x from `pos` on, in the order of entry: a record after its inside,
// a key and a value after both insides; or the slot behind the row. `wait` is a slot that waits for the row's end. A subtree is entered
// where the prefix fits. No twin of `meet_row` of index_folded_names, which goes in slot order, up to a second match.
pub fn seek<'a>(
    trees: &Trees<'a>,
    plan: &PlanRows,
    m: usize,
    row: Siblings,
    role: Role,
    x: &[u8],
    pos: usize,
    wait: Option<Slot>,
) -> ControlFlow<Slot, Slot>
    requires { (row.slot ≤ m) × SourcesIn (trees_in trees.now) plan.now m }
    ensures { result ≡ sighting (names_in (trees_in trees.now) plan.now)
        (kinds_in (trees_in trees.now) plan.now) role
        (left_at x.now pos) (held wait)
        (walk_in plan.now m row.levels row.count row.slot) }
{
    // the row itself, then each row inside it, so that a frame holds one
    let mut inner = row;
    if x.len() < pos {
        return ended(wait, row_next(plan, m, inner));
    }
    if row.levels == 0 {
        return ended(wait, row.slot);
    }
    let mut at = row.slot;
    inner.levels = row.levels - 1;
    let mut part = role;
    let mut first = wait;
    for done in 0..row.count {
        if m <= at {
            return ended(first, at);
        }
        inner.slot = at + 1;
        inner.count = plan.members[at];
        let turn = turn_at(trees, plan, m, at, part, x, pos);
        let next = seek(trees, plan, m, inner, turn.role, x, turn.pos, None)?;
        if !is_late(part) && turn.me.is_some() {
            return ControlFlow::Break(Slot(at));
        }
        // only a late one is left to wait: any other would have been the answer
        first = first.or(turn.me);
        part = next_role(part);
        at = next.0;
    }
    ended(first, at)
}
