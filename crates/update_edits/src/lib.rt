// One edit: what a look-up's answer decides, refusals 23, 24, 13 and 26; the marks that edits leave on slots of the base; and a plan
// whose sources carry them.
#![tactic(auto)]

ghost use Rattle.std.specs.Prelude.{◌≡◌, ◌&&◌, ◌+◌, ◌*◌, ◌≤◌, ◌<◌, leb, length, get_or, set};
ghost use Rattle.paper.specs.Bytes.{rec_at, kind_at};
ghost use Rattle.paper.specs.Field.{is_member, is_primitive};
ghost use Rattle.paper.specs.Lists.{edit_at};
ghost use Rattle.paper.specs.Promotions.{allowed};
ghost use Rattle.record.specs.Says.{refusal_of, checked};
ghost use Rattle.record.specs.Trees.{trees_in};
ghost use Rattle.plan.specs.Plan.{low_part};
ghost use Rattle.index_ids.specs.Table.{ups_in};
ghost use Rattle.update_dropped.specs.Set.{dropped_ids};
ghost use Rattle.update_gone.specs.Gone.{Rises};
ghost use Rattle.update_edits.specs.Roles.{role_at};
ghost use Rattle.update_edits.specs.Edit.{Lands, Named, edit_fits, OneEdited};
ghost use Rattle.update_edits.specs.Marks.{mark_with, marked_by, remarked, RemarkedIn};

use index_ids::{IndexRows, UPS, cell};
use paper::{Role, first_role, is_key, is_primitive, next_role};
use plan::PlanRows;
use record::{FieldId, Refusal, Slot, Trees, code_at, has_dot, kind_at, slot_before};
use record_entries::{What, new_code_at, new_name_at, what_at};
use update_dropped::Dropped;
use update_gone::is_gone;
use update_promotions::is_allowed;

// A mark for each slot of the base: 0 as it was, 1 relaxed, 2 * (k + 1) more where edit k renames it, 256 * (k + 1) more where edit k
// widens it. A number, no struct: 2 KB of a small stack, and `Carries` tells of numbers. The next four functions alone make and read it.
pub type Marks = [u16; 1024];

// Whether an edit renames a column of this mark.
fn is_renamed(mark: u16) -> bool
    ensures { result ≡ leb 2 (low_part mark) }
{
    2 <= mark % 256
}

// Whether an edit widens a column of this mark.
fn is_widened(mark: u16) -> bool
    ensures { result ≡ leb 256 mark }
{
    256 <= mark
}

// A mark with the edit k, which keeps what other edits left.
fn with_edit(mark: u16, what: What, k: usize) -> u16
    requires { k < 64 }
    ensures { result ≡ mark_with what k mark }
{
    let edit = k as u16 + 1;
    match what {
        What::Rename => mark / 256 * 256 + (mark % 2 + 2 * edit),
        What::Relax => mark + (1 - mark % 2),
        What::Widen => mark % 256 + 256 * edit,
    }
}

// A source of a plan as its mark has it: one of the base alone has a mark.
#[tactic(auto, using(crate::proofs::Marking::sourcing))]
fn marked_source(marks: &Marks, source: u32) -> u32
    ensures { result ≡ remarked marks.now source }
{
    if 1024 <= source {
        return source;
    }
    let mark = u32::from(marks[source as usize]);
    if mark == 0 {
        return source;
    }
    2048 + source + 1024 * mark
}

// The edit k is put into the mark of its column's slot; the other marks stay.
pub fn put_edit(marks: &mut Marks, slot: usize, edits: &[u8], k: usize)
    requires { (slot < 1024) × (k < 64) × (k * 16 + 16 ≤ length edits.now) }
    ensures { marks.new ≡ set marks.old slot
        (marked_by edits.now k (get_or marks.old slot 0)) }
{
    let mark = marks[slot];
    marks[slot] = with_edit(mark, what_at(edits, k), k);
}

// The first m sources of a plan as their marks have them; all else stays.
#[tactic(auto, using(crate::proofs::Remarking::remarking))]
pub fn mark_plan(plan: &mut PlanRows, m: usize, marks: &Marks)
    requires { m ≤ 1024 }
    ensures { RemarkedIn marks.now m plan.old plan.new }
{
    for i in 0..m {
        plan.sources[i] = marked_source(marks, plan.sources[i]);
    }
}

// The role of the base record at a slot. The first record inside another stands right behind it.
#[tactic(auto, using(crate::proofs::Roles::roles))]
fn role_at(recs: &[u8], n: usize, index: &IndexRows, slot: usize) -> Role
    requires { Rises recs.now n (ups_in index.now) × (slot < n) }
    ensures { result ≡ role_at recs.now (ups_in index.now) slot }
{
    let Some(above) = slot_before(cell(index, UPS, slot)) else {
        return Role::Member;
    };
    let first = first_role(kind_at(recs, above.0));
    if slot == above.0 + 1 {
        return first;
    }
    next_role(first)
}

// Whether a record is a member of a struct or of the root.
fn is_member(role: Role) -> bool
    ensures { result ≡ is_member role }
{
    role == Role::Member
}

// Whether a record is a primitive of a type that the version allows to become this one.
fn is_widenable(recs: &[u8], slot: usize, version: u32, code: u32) -> bool
    requires { slot * 24 + 24 ≤ length recs.now }
    ensures { result ≡ (is_primitive (kind_at recs.now slot) && allowed version
        (rec_at recs.now slot).code code) }
{
    let primitive = is_primitive(kind_at(recs, slot));
    primitive & is_allowed(version, code_at(recs, slot), code)
}

// A refusal of the edit k, in the list of edits.
fn refused(number: u32, k: usize) -> Refusal
    requires { k < 64 }
    ensures { result ≡ refusal_of number 6 k }
{
    Refusal {
        number,
        list: 6,
        place: k as u32,
    }
}

// What the edit k asks of the column at a slot: refusals 24, 13 and 26. Only members are renamed, no key is relaxed, columns of any
// role are widened. `marks` has what earlier edits renamed and widened, and nothing is renamed or widened a second time.
#[tactic(auto, using(crate::proofs::Deciding::fitting))]
fn check_edit<'a>(
    trees: &Trees<'a>,
    n: usize,
    index: &IndexRows,
    version: u32,
    k: usize,
    slot: usize,
    marks: &Marks,
) -> Result<(), Refusal>
    requires { Rises (trees_in trees.now).records n (ups_in index.now) × (slot < n)
        × Named (trees_in trees.now).request_pool (trees_in trees.now).edits k }
    ensures { result ≡ checked (edit_fits (trees_in trees.now).records
        (ups_in index.now) version (trees_in trees.now).request_pool
        (trees_in trees.now).edits k marks.now slot) }
{
    let edits = trees.edits;
    let role = role_at(trees.records, n, index, slot);
    let mark = marks[slot];
    match what_at(edits, k) {
        What::Rename => {
            if !is_member(role) | is_renamed(mark) {
                return Err(refused(24, k));
            }
            if has_dot(new_name_at(trees.request_pool, edits, k)) {
                return Err(refused(13, k));
            }
            Ok(())
        }
        What::Relax => {
            if is_key(role) {
                return Err(refused(24, k));
            }
            Ok(())
        }
        What::Widen => {
            if is_widened(mark) {
                return Err(refused(24, k));
            }
            if !is_widenable(trees.records, slot, version, new_code_at(edits, k)) {
                return Err(refused(26, k));
            }
            Ok(())
        }
    }
}

// The edit k, of the column that its path found: its slot, or refusal 23 where nothing was found or the column goes, or 24, 13 or 26.
pub fn edit_one<'a>(
    found: Option<(FieldId, Slot)>,
    trees: &Trees<'a>,
    n: usize,
    index: &IndexRows,
    version: u32,
    k: usize,
    dropped: &Dropped,
    marks: &Marks,
) -> Result<Slot, Refusal>
    requires { Lands n found × Rises (trees_in trees.now).records n (ups_in index.now)
        × Named (trees_in trees.now).request_pool (trees_in trees.now).edits k }
    ensures { OneEdited found (trees_in trees.now).records n (ups_in index.now)
        version (trees_in trees.now).request_pool
        (trees_in trees.now).edits k (dropped_ids dropped.now) marks.now
        result }
{
    let Some((_, at)) = found else {
        return Err(refused(23, k));
    };
    if is_gone(trees.records, n, index, at.0, dropped) {
        return Err(refused(23, k));
    }
    check_edit(trees, n, index, version, k, at.0, marks)?;
    Ok(at)
}
