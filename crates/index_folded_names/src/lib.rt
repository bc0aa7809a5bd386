// Names whose case is forgotten, in slot order (02, 1/13): a walk that carries how much of the asked name is matched, and builds no
// name. Full names and short ones are walked alike.
#![tactic(auto)]

ghost use Rattle.std.specs.Prelude.{◌≡◌, not, ◌&&◌, ◌-◌, ◌≤◌, ◌<◌, eqb, length};
ghost use Rattle.std.specs.Option.{is_some};
ghost use Rattle.paper.specs.Folded.{folded};
ghost use Rattle.record.specs.Trees.{trees_in};
ghost use Rattle.plan.specs.Named.{names_in, kinds_in, SourcesIn};
ghost use Rattle.plan.specs.Walk.{walk_in};
ghost use Rattle.index_turns.specs.Turn.{left_at};
ghost use Rattle.index_folded_names.specs.Met.{folded_in, meeting};

use index_turns::{Inside, fit_at, inside_at, own_slot, row_next};
use paper::next_role;
use plan::{PlanRows, name_of};
use record::{Siblings, Slot, Trees};
use std::ops::ControlFlow;

// Whether both are there.
fn both(a: Option<Slot>, b: Option<Slot>) -> bool
    ensures { result ≡ (is_some a && is_some b) }
{
    a.is_some() && b.is_some()
}

// Whether a record without members can't match: its name is not as long as what is left of x. Most are passed over so.
fn misses<'a>(
    trees: &Trees<'a>,
    plan: &PlanRows,
    m: usize,
    at: usize,
    members: u32,
    x: &[u8],
    pos: usize,
) -> bool
    requires { (at < m) × ((pos ≤ length x.now)
        × SourcesIn (trees_in trees.now) plan.now m) }
    ensures { result ≡ (eqb members 0 && not (eqb
        (length (names_in (trees_in trees.now) plan.now at))
        (length x.now - pos))) }
{
    let name = name_of(trees, plan, m, at);
    members == 0 && name.len() != x.len() - pos
}

// The records of a row of trees whose names fold to what is left of x, in slot order, up to the second, whose slot is told; or the slot
// behind the row, with the one match up to there. `part` says what is left at the row's first, `met` is the one match before. A subtree
// is entered where the prefix fits. No `for`: a turn may go down, to the row inside a last record.
pub fn meet_row<'a>(
    trees: &Trees<'a>,
    plan: &PlanRows,
    m: usize,
    mut row: Siblings,
    mut part: Inside,
    short: bool,
    x: &[u8],
    mut met: Option<Slot>,
) -> ControlFlow<Slot, (Slot, Option<Slot>)>
    requires { (row.slot ≤ m) × SourcesIn (trees_in trees.now) plan.now m }
    ensures { result ≡ meeting (folded_in (trees_in trees.now) plan.now)
        (kinds_in (trees_in trees.now) plan.now) short part.role
        (left_at (folded x.now) part.pos) met
        (walk_in plan.now m row.levels row.count row.slot) }
{
    while 0 < row.count {
        let at = row.slot;
        // Nothing here can match: the row is passed over.
        if x.len() < part.pos || row.levels == 0 || m <= at {
            return ControlFlow::Continue((Slot(row_next(plan, m, row)), met));
        }
        let members = plan.members[at];
        let role = part.role;
        row.slot = at + 1;
        row.count -= 1;
        part.role = next_role(role);
        if misses(trees, plan, m, at, members, x, part.pos) {
            continue;
        }
        let f = fit_at(trees, plan, m, at, true, x, part.pos);
        let me = own_slot(f, at);
        if both(met, me) {
            return ControlFlow::Break(Slot(at));
        }
        met = met.or(me);
        // Nothing is inside a leaf: no call is made for it.
        if members == 0 {
            continue;
        }
        let inside = inside_at(trees, plan, m, at, role, short, f, x, part.pos);
        let inner = Siblings {
            slot: at + 1,
            count: members,
            levels: row.levels - 1,
        };
        // The last of a row: its inside is what is left, and needs no call either.
        if row.count == 0 {
            row = inner;
            part = inside;
            continue;
        }
        let (next, one) = meet_row(trees, plan, m, inner, inside, short, x, met)?;
        met = one;
        row.slot = next.0;
    }
    ControlFlow::Continue((Slot(row.slot), met))
}
