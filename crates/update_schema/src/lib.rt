// update_schema.rs: deletions and additions decided one at a time, the rebuilt tree, its tests, and the answer.
#![tactic(auto)]

ghost use Rattle.std.specs.Prelude.{◌≡◌, ◌<◌};
ghost use Rattle.paper.specs.Bytes.{name_of};
ghost use Rattle.paper.specs.Lists.{parent_path};
ghost use Rattle.paper.specs.Update.{placed};
ghost use Rattle.tree.specs.Read.{Standing};
ghost use Rattle.update_dropped.specs.Set.{dropped_ids};
ghost use Rattle.update_decide.specs.Entry.{goes};
ghost use Rattle.record.specs.Trees.{trees_in, lists_in};
ghost use Rattle.plan.specs.Table.{fields_in};
ghost use Rattle.update_rebuild.specs.Planned.{DecisionsRoom};
ghost use Rattle.update_schema.specs.Base.{AdditionIn};
ghost use Rattle.update_schema.specs.Additions.{
  column_size,
  numbered,
  OneSpotted,
  ColumnsIn,
  PlacesIn,
};
ghost use Rattle.update_schema.specs.Changes.{Asked, DecidesIn};
ghost use Rattle.update_schema.specs.Deletions.{DropsIn};

use index::look_name;
use index_ids::IndexRows;
use plan::PlanRows;
use record::{Lists, Refusal, Trees, name_at};
use record_entries::{has_path, path_at};
use tree::tree_end;
use update_decide::{Base, assign_fresh_ids, check_added, drop_one, place_at_root};
use update_dropped::Dropped;
use update_rebuild::{Decisions, Given};

// An addition that is accepted: where it goes, the bits of its first id, the last id consumed, and the slot behind its column.
#[derive(Clone, Copy)]
pub struct Spot {
    pub under: Option<u64>,
    pub start: u32,
    pub last: u64,
    pub next: usize,
}

// What is decided on: the trees and lists of a request, how much they have, and the base as a plan of itself with its index.
#[derive(Clone, Copy)]
struct Request<'a> {
    trees: &'a Trees<'a>,
    lists: &'a Lists<'a>,
    given: Given,
    plan: &'a PlanRows,
    index: &'a IndexRows,
}

// The ids of an addition that has its place: refusal 18.
fn number(
    added: &[u8],
    m: usize,
    slot: usize,
    under: Option<u64>,
    place: u32,
    last: u64,
) -> Result<Spot, Refusal>
    requires { Standing 1 added.now m 15 slot × (last < 4294967296) }
    ensures { result ≡ numbered under last place slot
        (column_size added.now m slot) }
{
    let next = tree_end(added, m, slot, 15, 1);
    let (start, end) = assign_fresh_ids(last, next - slot, place)?;
    Ok(Spot {
        under,
        start,
        last: end,
        next,
    })
}

impl<'a> Request<'a> {
    // The deletions, one at a time: refusal 11 or 12, or the ids that they drop.
    fn drop_columns(&self, decisions: &mut Decisions) -> Result<(), Refusal>
        requires { Asked (trees_in self.now.trees.now) (lists_in self.now.lists.now)
            self.now.given self.now.plan.now self.now.index.now
            × DecisionsRoom decisions.old }
        ensures { DropsIn (trees_in self.now.trees.now) (lists_in self.now.lists.now)
            self.now.given self.now.plan.now result decisions.new }
    {
        for k in 0..self.given.deletions {
            let path = path_at(self.trees.request_pool, self.lists.deletions, k);
            let found = look_name(self.trees, self.plan, self.given.base, self.index, path);
            let id = drop_one(found, self.lists.identifiers, k as u32)?;
            decisions.drops[k] = u64::from(id.0);
        }
        Ok(())
    }

    // Where the addition k goes, whose column is at a slot of the additions tree: refusals 15, 16, 22, 17.
    fn find_place(&self, k: usize, slot: usize, dropped: &Dropped) -> Result<Option<u64>, Refusal>
        requires { Asked (trees_in self.now.trees.now) (lists_in self.now.lists.now)
            self.now.given self.now.plan.now self.now.index.now
            × AdditionIn (trees_in self.now.trees.now)
            (lists_in self.now.lists.now).additions k slot }
        ensures { result ≡ goes (placed (fields_in (trees_in self.now.trees.now)
            self.now.plan.now self.now.given.base) (dropped_ids dropped.now) k
            (name_of (trees_in self.now.trees.now).request_pool
            (trees_in self.now.trees.now).added_records slot)
            (parent_path (trees_in self.now.trees.now).request_pool
            (lists_in self.now.lists.now).additions k)) }
    {
        let trees = self.trees;
        let n = self.given.base;
        let name = name_at(trees.request_pool, trees.added_records, slot);
        if has_path(self.lists.additions, k) {
            let path = path_at(trees.request_pool, self.lists.additions, k);
            let parent = look_name(trees, self.plan, n, self.index, path);
            let base = Base {
                records: trees.records,
                n,
                pool: trees.pool,
                index: self.index,
                dropped,
            };
            return base.place_under(parent, name, k as u32);
        }
        let taken = look_name(trees, self.plan, n, self.index, name);
        place_at_root(taken, k as u32, dropped)
    }

    // The addition k, whole: refusals 13 and 14, its place, its ids behind the last one: its spot, or one of 13 to 16, 22, 17, 18.
    fn place_one(
        &self,
        last: u64,
        k: usize,
        slot: usize,
        dropped: &Dropped,
    ) -> Result<Spot, Refusal>
        requires { Asked (trees_in self.now.trees.now) (lists_in self.now.lists.now)
            self.now.given self.now.plan.now self.now.index.now
            × AdditionIn (trees_in self.now.trees.now)
            (lists_in self.now.lists.now).additions k slot
            × Standing 1 (trees_in self.now.trees.now).added_records
            self.now.given.added 15 slot × (last < 4294967296) }
        ensures { OneSpotted (fields_in (trees_in self.now.trees.now)
            self.now.plan.now self.now.given.base) (dropped_ids dropped.now)
            (trees_in self.now.trees.now).request_pool
            (trees_in self.now.trees.now).added_records
            (lists_in self.now.lists.now).additions self.now.given.added last
            k slot result }
    {
        let added = self.trees.added_records;
        check_added(added, self.trees.request_pool, slot, k as u32)?;
        let under = self.find_place(k, slot, dropped)?;
        number(added, self.given.added, slot, under, k as u32, last)
    }

    // The additions, one at a time: where each goes, its first slot, the bits of its first id. The last id consumed, plus 2^31, or the
    // first refusal.
    fn place_columns(&self, dropped: &Dropped, decisions: &mut Decisions) -> Result<u64, Refusal>
        requires { Asked (trees_in self.now.trees.now) (lists_in self.now.lists.now)
            self.now.given self.now.plan.now self.now.index.now
            × DecisionsRoom decisions.old }
        ensures { PlacesIn (trees_in self.now.trees.now)
            (lists_in self.now.lists.now).additions self.now.given
            self.now.plan.now dropped.now result decisions.old decisions.new }
    {
        let mut slot = 0;
        let mut last = self.given.last;
        for k in 0..self.given.additions {
            let spot = self.place_one(last, k, slot, dropped)?;
            decisions.unders[k] = spot.under;
            decisions.firsts[k] = slot;
            decisions.starts[k] = u64::from(spot.start);
            slot = spot.next;
            last = spot.last;
        }
        Ok(last)
    }
}

// Deletions one at a time, then additions one at a time: refusals 11 to 18 and 22, or all that the rebuild needs, and the last id
// consumed, plus 2^31.
pub fn decide_changes<'a>(
    trees: &Trees<'a>,
    lists: &Lists<'a>,
    given: Given,
    plan: &PlanRows,
    index: &IndexRows,
    decisions: &mut Decisions,
) -> Result<u64, Refusal>
    requires { Asked (trees_in trees.now) (lists_in lists.now) given plan.now index.now
        × DecisionsRoom decisions.old }
    ensures { DecidesIn (trees_in trees.now) (lists_in lists.now)
        given plan.now result decisions.new }
{
    let request = Request {
        trees,
        lists,
        given,
        plan,
        index,
    };
    request.drop_columns(decisions)?;
    let mut dropped = Dropped::none();
    dropped.fill(&decisions.drops, given.deletions);
    request.place_columns(&dropped, decisions)
}
