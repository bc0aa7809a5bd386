// index.rs: ids, parents and names of a planned tree, which the base is too. Refusals 7 to 9, and the look-ups.
#![tactic(auto)]

ghost use Rattle.std.specs.Prelude.{◌≡◌, ◌/◌, ◌≤◌, length};
ghost use Rattle.paper.specs.Bytes.{turned};
ghost use Rattle.paper.specs.Entries.{find_name, find_id, find_parent};
ghost use Rattle.paper.specs.Rows.{look_name};
ghost use Rattle.record.specs.Says.{found_row, looked};
ghost use Rattle.record.specs.Trees.{trees_in};
ghost use Rattle.plan.specs.Table.{sources, numbers, members, PlanIn, fields_in, Roomy};
ghost use Rattle.index_ids.specs.Chain.{Below, Cleared, held};
ghost use Rattle.index_ids.specs.Table.{ups_in, name_heads, Rooms, Fresh};
ghost use Rattle.index_ids.specs.Path.{IdsChained};
ghost use Rattle.plan.specs.Named.{SourcesIn};
ghost use Rattle.index.specs.Index.{
  Falling,
  Index,
  NamesIndexed,
  Indexing,
  at_slot,
  found_slot,
  short_slot,
  ById,
  ByParent,
  Readable,
  BaseIndexed,
};

use index_full_names::{check_names, find_full};
use index_identifiers::check_identifiers;
use index_ids::{IndexRows, UPS, cell, check_ids};
use index_names::{Prefix, mark_row};
use index_short_names::seek;
use paper::Role;
use plan::{PlanRows, take_base};
use record::{FieldId, Refusal, Siblings, Slot, Trees, has_dot};
use tree::read_tree;

// Refusal 8, and the index of full names. Ids stand on their paths by then, so of the heads only those of the names are still cleared.
fn index_names<'a>(
    trees: &Trees<'a>,
    plan: &PlanRows,
    m: usize,
    list: u32,
    index: &mut IndexRows,
) -> Result<(), Refusal>
    requires { SourcesIn (trees_in trees.now) plan.now m
        × (Rooms index.old × Cleared (name_heads index.old)) }
    ensures { NamesIndexed (trees_in trees.now) plan.now m list result
        index.old index.new }
{
    let row = Siblings {
        slot: 0,
        count: m as u32,
        levels: 16,
    };
    let before = Prefix { len: 0, hash: 0 };
    mark_row(trees, plan, m, row, before, index);
    check_names(trees, plan, m, list, index)
}

// Refusals 7, 8 and 9 of a planned tree, in that order, in a fresh table. Where there is none, its index is left.
pub fn index_plan<'a>(
    trees: &Trees<'a>,
    plan: &PlanRows,
    m: usize,
    list: u32,
    identifiers: &[u8],
    index: &mut IndexRows,
) -> Result<(), Refusal>
    requires { PlanIn (trees_in trees.now) plan.now m × (Fresh index.old
        × (length identifiers.now ≤ 256)) }
    ensures { Indexing (trees_in trees.now) plan.now m list
        identifiers.now result index.old index.new }
{
    check_ids(plan, m, list, index)?;
    index_names(trees, plan, m, list, index)?;
    check_identifiers(trees, identifiers, plan, m, index)
}

// A base that passed 2 to 6, as a plan of itself: refusals 7, 8 and 9, or its index.
pub fn index_base<'a>(
    trees: &Trees<'a>,
    n: usize,
    identifiers: &[u8],
    plan: &mut PlanRows,
    index: &mut IndexRows,
) -> Result<(), Refusal>
    requires { Readable (trees_in trees.now) n × ((length identifiers.now ≤ 256)
        × (Roomy plan.old × Fresh index.old)) }
    ensures { BaseIndexed (trees_in trees.now) n identifiers.now result
        plan.old plan.new index.new }
{
    take_base(trees.records, n, plan);
    index_plan(trees, plan, n, 0, identifiers, index)
}

fn found_at(id: u32, slot: usize) -> Option<(FieldId, Slot)>
    ensures { result ≡ at_slot (turned id) slot }
{
    Some((FieldId(id), Slot(slot)))
}

// A slot that was found, with its id.
pub fn with_id(plan: &PlanRows, found: Option<Slot>) -> Option<(FieldId, Slot)>
    requires { Below found }
    ensures { result ≡ found_slot (numbers plan.now) (held found) }
{
    let Slot(k) = found?;
    found_at(plan.numbers[k], k)
}

// The record that has the id.
#[tactic(auto, using(index_ids::proofs::Chains::found_below_room, crate::proofs::Looking::finds_id))]
pub fn look_id(plan: &PlanRows, m: usize, index: &IndexRows, id: FieldId) -> Option<(FieldId, Slot)>
    requires { (m ≤ 1024) × IdsChained (numbers plan.now) index.now m }
    ensures { ById plan.now m id.0 result }
{
    with_id(plan, index_ids::find_id(plan, index, m, id.0))
}

// The record above the one that has the id.
pub fn look_parent(
    plan: &PlanRows,
    m: usize,
    index: &IndexRows,
    id: FieldId,
) -> Option<(FieldId, Slot)>
    requires { (m ≤ 1024) × (IdsChained (numbers plan.now) index.now m
        × Falling m (ups_in index.now)) }
    ensures { ByParent plan.now index.now m id.0 result }
{
    let Slot(k) = index_ids::find_id(plan, index, m, id.0)?;
    let up = cell(index, UPS, k);
    if up == 0 {
        return None;
    }
    look_id(plan, m, index, FieldId(plan.numbers[up - 1]))
}

// The first entered record that has the short name.
fn look_short<'a>(
    trees: &Trees<'a>,
    plan: &PlanRows,
    m: usize,
    name: &[u8],
) -> Option<(FieldId, Slot)>
    requires { SourcesIn (trees_in trees.now) plan.now m }
    ensures { result ≡ found_slot (numbers plan.now)
        (short_slot (trees_in trees.now) (sources plan.now)
        (members plan.now) m name.now) }
{
    let row = Siblings {
        slot: 0,
        count: m as u32,
        levels: 16,
    };
    let short = seek(trees, plan, m, row, Role::Member, name, 0, None);
    with_id(plan, short.break_value())
}

// The record that has the full name; else the first entered that has the short name, which has a dot where it is no full name.
#[tactic(auto, using(index_ids::proofs::Chains::found_below_room, crate::proofs::Looking::by_full, crate::proofs::Looking::by_short, crate::proofs::Looking::by_root))]
pub fn look_name<'a>(
    trees: &Trees<'a>,
    plan: &PlanRows,
    m: usize,
    index: &IndexRows,
    name: &[u8],
) -> Option<(FieldId, Slot)>
    requires { PlanIn (trees_in trees.now) plan.now m
        × Index (trees_in trees.now) plan.now m index.now }
    ensures { result ≡ found_row (look_name
        (fields_in (trees_in trees.now) plan.now m) name.now) }
{
    let full = find_full(trees, plan, m, index, name);
    if let Some(_) = full {
        return with_id(plan, full);
    }
    if !has_dot(name) {
        return None;
    }
    look_short(trees, plan, m, name)
}

// 2 to 8, then the look-up by name, in any bytes. The tables are made when 2 to 6 are passed, as in each look-up: to fill them takes
// longer than to read a small tree.
pub fn find_name<'a>(
    records: &'a [u8],
    pool: &'a [u8],
    name: &[u8],
) -> Result<Option<(FieldId, Slot)>, Refusal>
    ensures { result ≡ looked (find_name records.now pool.now
        name.now) }
{
    read_tree(records, pool)?;
    let trees = Trees::alone(records, pool);
    let n = records.len() / 24;
    let mut plan = PlanRows::empty();
    let mut index = [[0u16; 1024]; 8];
    index_base(&trees, n, b"", &mut plan, &mut index)?;
    Ok(look_name(&trees, &plan, n, &index, name))
}

// 2 to 8, then the look-up by id, in any bytes.
pub fn find_id<'a>(
    records: &'a [u8],
    pool: &'a [u8],
    id: FieldId,
) -> Result<Option<(FieldId, Slot)>, Refusal>
    ensures { result ≡ looked (find_id records.now pool.now id.0) }
{
    read_tree(records, pool)?;
    let trees = Trees::alone(records, pool);
    let n = records.len() / 24;
    let mut plan = PlanRows::empty();
    let mut index = [[0u16; 1024]; 8];
    index_base(&trees, n, b"", &mut plan, &mut index)?;
    Ok(look_id(&plan, n, &index, id))
}

// 2 to 8, then the look-up of the record above an id, in any bytes.
pub fn find_parent<'a>(
    records: &'a [u8],
    pool: &'a [u8],
    id: FieldId,
) -> Result<Option<(FieldId, Slot)>, Refusal>
    ensures { result ≡ looked (find_parent records.now pool.now id.0) }
{
    read_tree(records, pool)?;
    let trees = Trees::alone(records, pool);
    let n = records.len() / 24;
    let mut plan = PlanRows::empty();
    let mut index = [[0u16; 1024]; 8];
    index_base(&trees, n, b"", &mut plan, &mut index)?;
    Ok(look_parent(&plan, n, &index, id))
}
