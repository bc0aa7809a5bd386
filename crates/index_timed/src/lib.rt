// Building the index of ids and searching in it, apart from all else, so that the benchmark can time it. No entry calls this.
#![tactic(auto)]

ghost use Rattle.std.specs.Prelude.{◌≡◌, ◌/◌, ◌≤◌, length};
ghost use Rattle.plan.specs.Table.{numbers};
ghost use Rattle.index_ids.specs.Path.{IdsChained};
ghost use Rattle.index_timed.specs.Timed.{counts, each_round, all_rounds, timed};

use index_ids::{IndexRows, check_ids, find_id};
use plan::{PlanRows, take_base};
use record::Slot;
use record_entries::id_at;
use record_limits::whole_list;

// The count behind one search.
fn counted(found: Option<Slot>, count: u32) -> u32
    ensures { result ≡ counts found count }
{
    match found {
        None => count,
        Some(_) => count.wrapping_add(1),
    }
}

// One round: a search for each id. The count goes through, so that no round can be left out as the same as the one before.
fn search_each(plan: &PlanRows, index: &IndexRows, m: usize, ids: &[u8], count: u32) -> u32
    requires { (m ≤ 1024) × IdsChained (numbers plan.now) index.now m }
    ensures { result ≡ each_round (numbers plan.now) m ids.now count
        (length ids.now / 4) }
{
    let n = ids.len() / 4;
    let mut found = count;
    for i in 0..n {
        found = counted(find_id(plan, index, m, id_at(ids, i)), found);
    }
    found
}

// All rounds.
fn search_rounds(plan: &PlanRows, index: &IndexRows, m: usize, ids: &[u8], rounds: u32) -> u32
    requires { (m ≤ 1024) × IdsChained (numbers plan.now) index.now m }
    ensures { result ≡ all_rounds (numbers plan.now) m ids.now rounds }
{
    let mut count = 0;
    for _k in 0..rounds {
        count = search_each(plan, index, m, ids, count);
    }
    count
}

// The index of the records' ids is built, then each id is sought in it, in so many rounds: how many searches found a slot, modulo
// 2^32. 0 where the bytes are not at most 1,024 whole records, and where two ids are equal.
pub fn braidhurdle_timed_search(records: &[u8], ids: &[u8], rounds: u32) -> u32
    ensures { result ≡ timed records.now ids.now rounds }
{
    if !whole_list(records, 24, 1024) {
        return 0;
    }
    let n = records.len() / 24;
    let mut plan = PlanRows::empty();
    let mut index = [[0u16; 1024]; 8];
    take_base(records, n, &mut plan);
    match check_ids(&plan, n, 0, &mut index) {
        Ok(()) => search_rounds(&plan, &index, n, ids, rounds),
        Err(_) => 0,
    }
}
