// What a walk that looks for a name meets at a record: how much of the name is matched there, full or short, with case or without.
// No name is built or copied.
#![tactic(auto)]

ghost use Rattle.std.specs.Prelude.{◌≡◌, ◌&&◌, ◌+◌, ◌≤◌, ◌<◌, eqb, length, get_or, drop};
ghost use Rattle.paper.specs.Answer.{same};
ghost use Rattle.paper.specs.Folded.{fold, folded};
ghost use Rattle.paper.specs.Rows.{skipped};
ghost use Rattle.record.specs.Trees.{trees_in};
ghost use Rattle.plan.specs.Named.{names_in, kinds_in, SourcesIn};
ghost use Rattle.plan.specs.Walk.{walk_in};
ghost use Rattle.index_turns.specs.declared.Fit.TheVariants.{Prefix};
ghost use Rattle.index_turns.specs.Turn.{spelt, fits, fit_number, deeper, own_slot, Entered};

use paper::{Kind, Role, first_role, is_struct};
use plan::{PlanRows, name_of, planned_kind};
use record::{Siblings, Slot, Trees, equal};

// What a name is to what is left of an asked one: that, or it and a dot begin it, or neither.
#[derive(Clone, Copy, PartialEq, Eq)]
pub enum Fit {
    Whole,
    Prefix,
    Neither,
}

// What is inside a record for a search: its first member's role, and where to look on.
#[derive(Clone, Copy)]
pub struct Inside {
    pub role: Role,
    pub pos: usize,
}

// Where a row ends. A loop over the siblings, so the stack holds a frame for each level only.
pub fn row_next(plan: &PlanRows, m: usize, row: Siblings) -> usize
    requires { m ≤ 1024 }
    ensures { result
        ≡ (walk_in plan.now m row.levels row.count row.slot).next }
{
    if row.levels == 0 {
        return row.slot;
    }
    let mut at = row.slot;
    for done in 0..row.count {
        if m <= at {
            return at;
        }
        let inside = Siblings {
            slot: at + 1,
            count: plan.members[at],
            levels: row.levels - 1,
        };
        at = row_next(plan, m, inside);
    }
    at
}

// A to Z become a to z; no other byte folds.
#[tactic(auto, using(crate::proofs::Comparing::fold_is))]
fn fold(x: u8) -> u8
    ensures { result ≡ fold x }
{
    x.to_ascii_lowercase()
}

// Whether two names fold to the same byte at a place.
#[tactic(auto, using(crate::proofs::Comparing::at_alike))]
fn alike_at(a: &[u8], b: &[u8], i: usize) -> bool
    requires { (i < length a.now) × (i < length b.now) }
    ensures { result ≡ eqb (get_or (folded a.now) i 0)
        (get_or (folded b.now) i 0) }
{
    fold(a[i]) == fold(b[i])
}

// Whether two names are the same once they are folded.
fn equal_folded(a: &[u8], b: &[u8]) -> bool
    ensures { result ≡ same (folded a.now) (folded b.now) }
{
    let n = a.len();
    if n != b.len() {
        return false;
    }
    // names that differ mostly differ at their end
    if 0 < n {
        if !alike_at(a, b, n - 1) {
            return false;
        }
    }
    // the loop has no other end, so that many bytes can be compared at a step, as the library's search for a difference can't
    let mut so_far = true;
    for i in 0..n {
        so_far &= alike_at(a, b, i);
    }
    so_far
}

// The one comparison of names: by their bytes, or by what these fold to.
#[tactic(auto, using(crate::proofs::Comparing::alike_folded, crate::proofs::Comparing::alike_exact))]
fn alike(a: &[u8], b: &[u8], folding: bool) -> bool
    ensures { result ≡ same (spelt folding a.now) (spelt folding b.now) }
{
    if folding {
        return equal_folded(a, b);
    }
    equal(a, b)
}

// Whether short names below leave the record out: a list element or map value of kind struct. A key stays.
fn skips(role: Role, kind: Kind) -> bool
    ensures { result ≡ skipped role kind }
{
    match role {
        Role::Member | Role::Key => false,
        Role::Element | Role::Value => is_struct(kind),
    }
}

fn kind_of<'a>(trees: &Trees<'a>, plan: &PlanRows, m: usize, k: usize) -> Kind
    requires { (k < m) × SourcesIn (trees_in trees.now) plan.now m }
    ensures { result ≡ kinds_in (trees_in trees.now) plan.now k }
{
    planned_kind(trees, plan.sources[k])
}

// A name against x from `pos` on. What stands behind it in x is looked at first, so most names are not compared at all.
#[tactic(auto, using(crate::proofs::Fitting::fit_none, crate::proofs::Fitting::fit_whole, crate::proofs::Fitting::fit_other, crate::proofs::Fitting::fit_apart, crate::proofs::Fitting::fit_under, crate::proofs::Fitting::fit_unlike))]
fn fit_name(name: &[u8], x: &[u8], pos: usize, folding: bool) -> Fit
    requires { pos ≤ length x.now }
    ensures { fit_number result ≡ fits (spelt folding name.now)
        (drop pos (spelt folding x.now)) }
{
    if x.len() - pos < name.len() {
        return Fit::Neither;
    }
    let end = pos + name.len();
    if end == x.len() {
        if alike(name, &x[pos..end], folding) {
            return Fit::Whole;
        }
        return Fit::Neither;
    }
    if x[end] != b'.' {
        return Fit::Neither;
    }
    if alike(name, &x[pos..end], folding) {
        return Fit::Prefix;
    }
    Fit::Neither
}

// Where to look on inside the record: behind x's end where nothing there can match.
#[tactic(auto, using(crate::proofs::Fitting::deep_skips, crate::proofs::Fitting::deep_goes, crate::proofs::Fitting::deep_ends))]
fn deeper(f: Fit, skip: bool, name: &[u8], x: &[u8], pos: usize) -> usize
    requires { (pos ≤ length x.now) × (f ≡ Prefix → pos + length name.now < length x.now) }
    ensures { result ≡ deeper skip (fit_number f) pos (length name.now) (length x.now) }
{
    if skip {
        return pos;
    }
    match f {
        Fit::Prefix => pos + name.len() + 1,
        _ => x.len() + 1,
    }
}

// The slot of the record itself, if its name is what is left.
pub fn own_slot(f: Fit, slot: usize) -> Option<Slot>
    ensures { result ≡ own_slot (fit_number f) slot }
{
    match f {
        Fit::Whole => Some(Slot(slot)),
        Fit::Prefix | Fit::Neither => None,
    }
}

// A record's name against what is left of x, which begins at `pos`: the first half of a walk's step.
pub fn fit_at<'a>(
    trees: &Trees<'a>,
    plan: &PlanRows,
    m: usize,
    at: usize,
    folding: bool,
    x: &[u8],
    pos: usize,
) -> Fit
    requires { (at < m) × ((pos ≤ length x.now)
        × SourcesIn (trees_in trees.now) plan.now m) }
    ensures { fit_number result ≡ fits (spelt folding (names_in (trees_in trees.now)
        plan.now at)) (drop pos (spelt folding x.now)) }
{
    fit_name(name_of(trees, plan, m, at), x, pos, folding)
}

// Where to look on inside a record, and its members' role: the second half, which a record without members does not need.
pub fn inside_at<'a>(
    trees: &Trees<'a>,
    plan: &PlanRows,
    m: usize,
    at: usize,
    role: Role,
    short: bool,
    f: Fit,
    x: &[u8],
    pos: usize,
) -> Inside
    requires { (at < m) × ((pos ≤ length x.now) × ((f ≡ Prefix → pos
        + length (names_in (trees_in trees.now) plan.now at) < length x.now)
        × SourcesIn (trees_in trees.now) plan.now m)) }
    ensures { Entered (trees_in trees.now) plan.now short role (fit_number f)
        x.now pos at result }
{
    let kind = kind_of(trees, plan, m, at);
    let name = name_of(trees, plan, m, at);
    let skip = short & skips(role, kind);
    Inside {
        role: first_role(kind),
        pos: deeper(f, skip, name, x, pos),
    }
}
