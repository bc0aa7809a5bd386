// prune_columns.rs: what is kept of a tree of which some records are chosen. The first walk finds refusal 20; the second plans
// what is kept, in slot order. Both call themselves for the inside of a record, with the levels left falling.
#![tactic(auto)]

ghost use Rattle.std.specs.Prelude.{◌≡◌, ◌+◌, ◌*◌, ◌≤◌, ◌<◌, length};
ghost use Rattle.paper.specs.Bytes.{kind_at};
ghost use Rattle.paper.specs.declared.Role.TheVariants.{Member, Element, Key};
ghost use Rattle.tree_walk.specs.There.{There};
ghost use Rattle.prune_columns.specs.Split.{is_nested, direct};
ghost use Rattle.prune_columns.specs.Projected.{
  marked,
  Checked,
  Row,
  Spot,
  Behind,
  Kept,
  KeptOne,
  KeptWhole,
  KeptYield,
  KeptInside,
  Span,
  Copied,
  Stored,
};

use paper::{Kind, Role, is_key, is_struct, next_role};
use plan::{PlanRows, copy_records, put_planned};
use record::{Refusal, Siblings, id_bits_at, kids_at, kind_at};
use tree::{inside_role, row_past};
use tree_walk::is_map;

// A tree and what is chosen of it: its records, a byte for each slot, which is 1 where the record is chosen, and whether all of what
// is chosen is kept (full mode).
#[derive(Clone, Copy)]
pub struct Choice<'a> {
    pub records: &'a [u8],
    pub marks: &'a [u8; 1024], // bytes, not bools: a narrower type would ask more of callers
    pub full: bool,
}

// What was planned: the slot after the trees, the place after their plan, and how many of the siblings are kept.
#[derive(Clone, Copy)]
pub struct Step {
    pub next: usize,
    pub at: usize,
    pub count: u32,
}

fn is_nested(k: Kind) -> bool
    ensures { result ≡ is_nested k }
{
    matches!(k, Kind::Listing | Kind::Mapping)
}

// The records from `slot` to `past`, which are `count` trees, planned as they stand from place `at` on.
fn copy_trees(
    records: &[u8],
    slot: usize,
    past: usize,
    count: u32,
    plan: &mut PlanRows,
    at: usize,
) -> Step
    requires { Span records.now slot past at }
    ensures { Copied records.now slot past count plan.old at result
        plan.new }
{
    let size = past - slot;
    copy_records(records, slot, size, plan, at);
    Step {
        next: past,
        at: at + size,
        count,
    }
}

// The record at `slot`, planned at place `at` with what its type yielded, which stands behind that place.
fn put_record(records: &[u8], slot: usize, inside: Step, plan: &mut PlanRows, at: usize) -> Step
    requires { (slot * 24 + 24 ≤ length records.now) × (slot < 1024) × (at ≤ slot) }
    ensures { Stored records.now slot inside plan.old at result
        plan.new }
{
    put_planned(
        plan,
        at,
        slot as u32,
        id_bits_at(records, slot),
        inside.count,
    );
    Step {
        next: inside.next,
        at: inside.at,
        count: 1,
    }
}

// The record at `slot` with all its inside.
fn project_whole(records: &[u8], slot: usize, levels: usize, plan: &mut PlanRows, at: usize) -> Step
    requires { Spot records.now levels slot at }
    ensures { KeptWhole records.now levels slot plan.old at result
        plan.new }
{
    let n = records.len() / 24;
    let past = row_past(records, n, slot + 1, kids_at(records, slot), levels, 0);
    copy_trees(records, slot, past, 1, plan, at)
}

impl<'a> Choice<'a> {
    // Whether the slot is marked.
    #[tactic(auto, unfolding(crate::specs::Projected::marked))]
    fn is_chosen(&self, slot: usize) -> bool
        requires { slot < 1024 }
        ensures { result ≡ marked self.now.marks.now slot }
    {
        self.marks[slot] == 1
    }

    // Whether a record is a list or map chosen directly, not in full mode. A key is never tested.
    fn is_direct(&self, slot: usize, role: Role) -> bool
        requires { (slot < 1024) × (slot * 24 + 24 ≤ length self.now.records.now) }
        ensures { result ≡ direct self.now.full role
            (marked self.now.marks.now slot) (kind_at self.now.records.now slot) }
    {
        !is_key(role)
            && self.is_chosen(slot)
            && !self.full
            && is_nested(kind_at(self.records, slot))
    }

    // Refusal 20 among siblings and in their insides, which come first; or the slot after them.
    pub fn check_direct(&self, row: Siblings, role: Role) -> Result<usize, Refusal>
        requires { There self.now.records.now row.levels row.count row.slot }
        ensures { Checked self.now.records.now self.now.marks.now
            self.now.full row.levels row.count row.slot role result }
    {
        let mut at = row.slot;
        let mut own = role;
        for passed in 0..row.count {
            let inside = Siblings {
                slot: at + 1,
                count: kids_at(self.records, at),
                levels: row.levels - 1,
            };
            let next = self.check_direct(inside, inside_role(self.records, at))?;
            if self.is_direct(at, own) {
                return Err(Refusal {
                    number: 20, // refusal 20
                    list: 0,
                    place: at as u32,
                });
            }
            at = next;
            own = next_role(own);
        }
        Ok(at)
    }

    // What is kept of the roots, or of the members of a struct: what each keeps, in order.
    #[cycle(project)]
    pub fn project_fields(&self, row: Siblings, plan: &mut PlanRows, at: usize) -> Step
        requires { Row self.now.records.now row.levels row.count row.slot at }
        ensures { Kept self.now.records.now self.now.marks.now
            self.now.full Member row.levels row.count row.slot plan.old at
            result plan.new }
    {
        let mut next = row.slot;
        let mut place = at;
        let mut kept: u32 = 0;
        for passed in 0..row.count {
            let one = self.project_field(next, row.levels - 1, plan, place);
            next = one.next;
            place = one.at;
            kept += one.count;
        }
        Step {
            next,
            at: place,
            count: kept,
        }
    }

    // What is kept of one record that is no key: chosen, all of it or, of a struct, what it yields; not chosen, what its type
    // yields. (A list or map that is chosen directly was refused with 20.)
    #[cycle(project)]
    fn project_field(&self, slot: usize, levels: usize, plan: &mut PlanRows, at: usize) -> Step
        requires { Spot self.now.records.now levels slot at }
        ensures { KeptOne self.now.records.now self.now.marks.now
            self.now.full levels slot plan.old at result plan.new }
    {
        if self.is_chosen(slot) {
            if self.full | !is_struct(kind_at(self.records, slot)) {
                return project_whole(self.records, slot, levels, plan, at);
            }
            return self.project_selected_struct(slot, levels, plan, at);
        }
        let inside = self.project_type(slot, levels, plan, at + 1);
        if inside.count == 0 {
            return Step {
                next: inside.next,
                at,
                count: 0,
            };
        }
        put_record(self.records, slot, inside, plan, at)
    }

    // A chosen struct: what it yields, or an empty struct.
    #[cycle(project)]
    fn project_selected_struct(
        &self,
        slot: usize,
        levels: usize,
        plan: &mut PlanRows,
        at: usize,
    ) -> Step
        requires { Spot self.now.records.now levels slot at }
        ensures { KeptYield self.now.records.now self.now.marks.now
            self.now.full levels slot plan.old at result plan.new }
    {
        let inside = self.project_type(slot, levels, plan, at + 1);
        put_record(self.records, slot, inside, plan, at)
    }

    // What the type of the record at `slot` yields.
    #[cycle(project)]
    fn project_type(&self, slot: usize, levels: usize, plan: &mut PlanRows, at: usize) -> Step
        requires { Behind self.now.records.now levels slot at }
        ensures { KeptInside self.now.records.now self.now.marks.now
            self.now.full levels slot plan.old at result plan.new }
    {
        let members = kids_at(self.records, slot);
        if members == 0 {
            return Step {
                next: slot + 1,
                at,
                count: 0,
            };
        }
        let inside = Siblings {
            slot: slot + 1,
            count: members,
            levels,
        };
        let kind = kind_at(self.records, slot);
        if is_map(kind) {
            return self.project_map(inside, plan, at);
        }
        if is_nested(kind) {
            return self.project_list(inside, plan, at);
        }
        self.project_fields(inside, plan, at)
    }

    // A list: the same tests on its element. (A function of its own, since the Rust has one of this name.)
    #[cycle(project)]
    fn project_list(&self, row: Siblings, plan: &mut PlanRows, at: usize) -> Step
        requires { Row self.now.records.now row.levels row.count row.slot at }
        ensures { Kept self.now.records.now self.now.marks.now
            self.now.full Element row.levels row.count row.slot plan.old at
            result plan.new }
    {
        self.project_fields(row, plan, at)
    }

    // A map, from its key's slot on: the key whole if the value keeps something; else all of it for a chosen key; else nothing.
    #[cycle(project)]
    fn project_map(&self, row: Siblings, plan: &mut PlanRows, at: usize) -> Step
        requires { (0 < row.count) × Row self.now.records.now row.levels row.count row.slot at }
        ensures { Kept self.now.records.now self.now.marks.now
            self.now.full Key row.levels row.count row.slot plan.old at
            result plan.new }
    {
        let n = self.records.len() / 24;
        let key = row.slot;
        let kids = kids_at(self.records, key);
        let value = row_past(self.records, n, key + 1, kids, row.levels - 1, 0);
        let values = Siblings {
            slot: value,
            count: row.count - 1,
            levels: row.levels,
        };
        let rest = self.project_fields(values, plan, at + (value - key));
        let past = rest.next;
        if 0 < rest.count {
            project_whole(self.records, key, row.levels - 1, plan, at);
            return Step {
                next: past,
                at: rest.at,
                count: rest.count + 1,
            };
        }
        if self.is_chosen(key) {
            return copy_trees(self.records, key, past, row.count, plan, at);
        }
        Step {
            next: past,
            at,
            count: 0,
        }
    }
}
