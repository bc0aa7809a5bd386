// The rebuild of an update, as a plan: dropped members go with their subtrees, additions follow the survivors.
#![tactic(auto)]

ghost use Rattle.std.specs.Prelude.{◌≡◌, true, not, ◌&&◌, ◌+◌, ◌-◌, ◌*◌, ◌≤◌, ◌<◌, eqb, length};
ghost use Rattle.update_dropped.specs.Set.{dropped_ids};
ghost use Rattle.paper.specs.Bytes.{turned, kids_at, kind_at};
ghost use Rattle.paper.specs.Field.{is_struct};
ghost use Rattle.paper.specs.Rebuild.{arriving};
ghost use Rattle.tree.specs.Read.{reads};
ghost use Rattle.update_rebuild.specs.Sources.{parent, added_tree, rebuilt_base, passed_base};
ghost use Rattle.update_rebuild.specs.Planned.{
  Word,
  Readable,
  Inside,
  ResolvedIn,
  additions_in,
  Based,
  Planned,
  AddedIn,
  HeadOf,
  StandsAt,
  closing,
  DecisionsRoom,
  nothing_decided,
  RowPlanned,
  OnePlanned,
  Rebuilds,
};

use paper::is_struct;
use plan::{PlanRows, put_planned};
use record::{Siblings, id_bits_at, kids_at, kind_at, low_32};
use tree::{row_end, tree_end};
use update_dropped::Dropped;

// How much a request has: base records, added records, deletions, additions and edits; the last id, plus 2^31; and the version that
// it names.
#[derive(Clone, Copy)]
pub struct Given {
    pub base: usize,
    pub added: usize,
    pub deletions: usize,
    pub additions: usize,
    pub edits: usize,
    pub last: u64,
    pub version: u32,
}

// What is decided of a request: the bits of each deletion's id; of each addition the bits of the id of the struct that it goes to
// (`None`: it goes to the root list), its first slot in the additions tree, and the bits of its first id.
#[derive(Clone, Copy)]
pub struct Decisions {
    pub drops: [u64; 64],
    pub unders: [Option<u64>; 64],
    pub firsts: [usize; 64],
    pub starts: [u64; 64],
}

impl Decisions {
    // Nothing decided yet: rows of zeros, and root lists.
    #[tactic(auto, unfolding(crate::specs::Planned::nothing_decided))]
    pub fn none() -> Decisions
        ensures zeros { result ≡ nothing_decided }
        ensures room { DecisionsRoom result }
    {
        Decisions {
            drops: [0; 64],
            unders: [None; 64],
            firsts: [0; 64],
            starts: [0; 64],
        }
    }
}

// What a rebuild reads: the base's records and the added ones, how much a request has, the ids that go, and what was decided.
#[derive(Clone, Copy)]
pub struct Rebuilder<'a> {
    pub records: &'a [u8],
    pub added: &'a [u8],
    pub given: Given,
    pub dropped: &'a Dropped,
    pub decisions: &'a Decisions,
    ghost resolved: { ResolvedIn added.now given decisions.now },
}

// Where a walk stands: the next slot that it reads, the next place of the plan; of these siblings, those planned so far, and the records
// visited in them.
#[derive(Clone, Copy)]
pub struct Place {
    pub next: usize,
    pub at: usize,
    pub count: u32,
    pub visited: u32,
}

// What siblings stand under: whether they are open to change, and where additions to them go.
#[derive(Clone, Copy)]
pub struct Under {
    pub opens: bool,
    pub q: Option<u64>,
}

// What the rebuild asks of a record: its id, how many members it has, and what they stand under.
#[derive(Clone, Copy)]
pub struct Head {
    pub id: u32,
    pub members: u32,
    pub under: Under,
}

fn head_at(recs: &[u8], slot: usize) -> Head
    requires { slot * 24 + 24 ≤ length recs.now }
    ensures { HeadOf recs.now slot result }
{
    let id = id_bits_at(recs, slot);
    Head {
        id,
        members: kids_at(recs, slot),
        under: Under {
            opens: is_struct(kind_at(recs, slot)),
            q: Some(u64::from(id)),
        },
    }
}

// Whether nothing comes to stand inside: no members, and no additions to them.
fn is_leaf(head: Head) -> bool
    ensures { result ≡ (not head.under.opens && eqb head.members 0) }
{
    !head.under.opens && head.members == 0
}

// So many added records from a slot on, planned from place `at` on, with ids in preorder.
fn put_added(added: &[u8], slot: usize, count: usize, id: u32, plan: &mut PlanRows, at: usize)
    requires { ((slot + count) * 24 ≤ length added.now) × (slot + count ≤ 1024)
        × (at + count ≤ 1024) }
    ensures { AddedIn (kids_at added.now) slot count (turned id)
        plan.old at plan.new }
{
    for i in 0..count {
        let k = slot + i;
        let number = id.wrapping_add(i as u32);
        put_planned(plan, at + i, (1024 + k) as u32, number, kids_at(added, k));
    }
}

// Where a walk stands past a record that stays: one sibling more, and it and its inside visited.
fn past(place: Place, inside: Place) -> Place
    requires { (place.count ≤ 1024) × (place.visited ≤ 2048) × (inside.visited ≤ 2048) }
    ensures { StandsAt inside.next inside.at (place.count + 1)
        (place.visited + 1 + inside.visited) result }
{
    Place {
        next: inside.next,
        at: inside.at,
        count: place.count + 1,
        visited: place.visited + 1 + inside.visited,
    }
}

// Past a dropped member, which ends before slot `end`: it is visited, and nothing inside it.
fn over(here: Place, end: usize) -> Place
    requires { (here.visited ≤ 2048) × (here.next < end) × (end ≤ 1024) }
    ensures { StandsAt end here.at here.count (here.visited + 1) result }
{
    Place {
        next: end,
        at: here.at,
        count: here.count,
        visited: here.visited + 1,
    }
}

// Behind an added tree of so many records: one sibling more, and each of them visited once.
fn behind(place: Place, size: usize) -> Place
    requires { (place.at ≤ 1024) × (place.count ≤ 1024) × (place.visited ≤ 2048)
        × (size ≤ 1024) }
    ensures { StandsAt place.next (place.at + size) (place.count + 1)
        (place.visited + size) result }
{
    Place {
        next: place.next,
        at: place.at + size,
        count: place.count + 1,
        visited: place.visited + size as u32,
    }
}

// One added tree, behind what is planned. `None`: record 1,025 or level 17 would be planned.
fn add_tree(
    added: &[u8],
    m: usize,
    slot: usize,
    id: u32,
    levels: usize,
    plan: &mut PlanRows,
    place: Place,
) -> Option<Place>
    requires { (m * 24 ≤ length added.now) × (m ≤ 1024) × (slot ≤ m)
        × (reads 1 (kids_at added.now) m 16 1 slot ≡ true) × (levels ≤ 16) × (place.at ≤ 1024)
        × (place.count ≤ place.at) × (place.visited ≤ place.at + 1024) }
    ensures { Planned (added_tree added.now m slot id) 0 place.next levels
        place.at place.count place.visited plan.old result plan.new }
{
    let Ok(end) = row_end(added, m, slot, 1, levels, 1) else {
        return None;
    };
    let size = end - slot;
    if 1024 - place.at < size {
        return None;
    }
    put_added(added, slot, size, id, plan, place.at);
    Some(behind(place, size))
}

impl<'a> Rebuilder<'a> {
    // The additions under q, in entry order.
    fn add_all(
        &self,
        q: Option<u64>,
        levels: usize,
        plan: &mut PlanRows,
        place: Place,
    ) -> Option<Place>
        requires { Word q × (levels ≤ 16) × (place.at ≤ 1024)
            × (place.count ≤ place.at) × (place.visited ≤ place.at + 1024) }
        ensures { Planned (arriving (additions_in self.now.added.now self.now.given
            self.now.decisions.now) (parent q)) 0 place.next levels place.at
            place.count place.visited plan.old result plan.new }
    {
        let mut here = place;
        for j in 0..self.given.additions {
            if self.decisions.unders[j] != q {
                continue;
            }
            let first = self.decisions.firsts[j];
            let start = low_32(self.decisions.starts[j]);
            here = add_tree(
                self.added,
                self.given.added,
                first,
                start,
                levels,
                plan,
                here,
            )?;
        }
        Some(here)
    }

    // The end of a row: additions follow the members of the root list or of a struct.
    fn close(&self, under: Under, levels: usize, plan: &mut PlanRows, place: Place) -> Option<Place>
        requires { Word under.q × (levels ≤ 16) × (place.at ≤ 1024)
            × (place.count ≤ place.at) × (place.visited ≤ place.at + 1024) }
        ensures { Planned (closing (additions_in self.now.added.now self.now.given
            self.now.decisions.now) (parent under.q) under.opens) 0 place.next
            levels place.at place.count place.visited plan.old result plan.new }
    {
        if under.opens {
            return self.add_all(under.q, levels, plan, place);
        }
        Some(place)
    }

    // A record that stays, and its inside rebuilt. Its place in the plan is filled once its members are counted. `None`: record 1,025
    // or level 17 would be planned (refusal 19).
    #[cycle(rebuild_field_rebuild_fields)]
    pub fn rebuild_field(
        &self,
        slot: usize,
        levels: usize,
        plan: &mut PlanRows,
        place: Place,
    ) -> Option<Place>
        requires { Inside self.now.records.now self.now.given.base levels slot
            × (place.at ≤ 1024) × (place.count ≤ place.at)
            × (place.visited ≤ place.at + slot) }
        ensures { OnePlanned self.now.records.now
            (dropped_ids self.now.dropped.now)
            (additions_in self.now.added.now self.now.given
            self.now.decisions.now) self.now.given.base levels slot plan.old
            place.at place.count place.visited result plan.new }
    {
        let at = place.at;
        if 1024 <= at {
            return None;
        }
        let head = head_at(self.records, slot);
        if is_leaf(head) {
            put_planned(plan, at, slot as u32, head.id, 0);
            return Some(Place {
                next: slot + 1,
                at: at + 1,
                count: place.count + 1,
                visited: place.visited + 1,
            });
        }
        let inside = Siblings {
            slot: slot + 1,
            count: head.members,
            levels: levels - 1,
        };
        let w = self.rebuild_fields(inside, head.under, plan, at + 1)?;
        put_planned(plan, at, slot as u32, head.id, w.count);
        Some(past(place, w))
    }

    // Siblings of the base, rebuilt. `None`: record 1,025 or level 17 would be planned (refusal 19).
    #[cycle(rebuild_field_rebuild_fields)]
    pub fn rebuild_fields(
        &self,
        row: Siblings,
        under: Under,
        plan: &mut PlanRows,
        at: usize,
    ) -> Option<Place>
        requires { Readable self.now.records.now self.now.given.base row.levels
            row.count row.slot × Word under.q × (at ≤ 1024) }
        ensures { RowPlanned self.now.records.now
            (dropped_ids self.now.dropped.now)
            (additions_in self.now.added.now self.now.given
            self.now.decisions.now) self.now.given.base row.levels row.count
            row.slot (parent under.q) under.opens plan.old at result plan.new }
    {
        let levels = row.levels;
        let mut here = Place {
            next: row.slot,
            at,
            count: 0,
            visited: 0,
        };
        for passed in 0..row.count {
            let k = here.next;
            if self.dropped.drops_member(self.records, k, under.opens) {
                here = over(
                    here,
                    tree_end(self.records, self.given.base, k, levels - 1, 0),
                );
                continue;
            }
            here = self.rebuild_field(k, levels, plan, here)?;
        }
        self.close(under, levels, plan, here)
    }

    // The whole base, rebuilt; `roots` is the number of its roots. `None`: record 1,025 or level 17 would be planned (refusal 19).
    #[tactic(auto, using(crate::proofs::Whole::based))]
    pub fn rebuild(&self, roots: u32, plan: &mut PlanRows) -> Option<Place>
        requires { Based self.now.records.now self.now.given.base roots }
        ensures { Rebuilds (rebuilt_base self.now.records.now self.now.given.base
            (dropped_ids self.now.dropped.now)
            (additions_in self.now.added.now self.now.given
            self.now.decisions.now))
            (passed_base self.now.records.now self.now.given.base
            (dropped_ids self.now.dropped.now))
            self.now.given.base plan.old result plan.new }
    {
        let all = Siblings {
            slot: 0,
            count: roots,
            levels: 16,
        };
        self.rebuild_fields(
            all,
            Under {
                opens: true,
                q: None,
            },
            plan,
            0,
        )
    }
}
