// Refusals 1 and 2: the lengths of all that is lent, tested before anything else is read. Each test takes any bytes at all.
#![tactic(auto)]

ghost use Rattle.std.specs.Prelude.{◌≡◌, ◌&&◌, ◌*◌, ◌≤◌, ◌<◌, leb, length};
ghost use Rattle.paper.specs.Limits.{room, whole, sum_from, name_lens, tree_sized, sized, sized_ids};
ghost use Rattle.record.specs.Trees.{trees_in, lists_in};
ghost use Rattle.record_limits.specs.Update.{SizedUpdate};

use record::{Lists, Trees, name_len_at};

// Output buffers of these lengths hold any answer; where they do not, refusal 1.
pub fn room(records: usize, names: usize) -> bool
    ensures { result ≡ room records names }
{
    (24576 <= records) & (32768 <= names)
}

// The same, refusal 1, for renumbering, which writes as many identifier bytes as it is given.
pub fn room_with_identifiers(records: usize, names: usize, given: usize, identifiers: usize) -> bool
    ensures { result ≡ (room records names && leb given identifiers) }
{
    room(records, names) & (given <= identifiers)
}

// A whole number of items, at most so many.
pub fn whole_list(s: &[u8], item: usize, most: usize) -> bool
    requires { (0 < item) × (item * most ≤ 24576) }
    ensures { result ≡ whole item most s.now }
{
    (s.len() % item == 0) & (s.len() <= item * most)
}

// The sum of the name lengths of n records, whatever else they hold: at most 255 * 1,024.
fn name_sum(recs: &[u8], n: usize) -> usize
    requires { (n * 24 ≤ length recs.now) × (n ≤ 1024) }
    ensures { result ≡ sum_from (name_lens recs.now) 0 n }
{
    let mut sum = 0;
    for i in 0..n {
        sum += name_len_at(recs, i);
    }
    sum
}

// At most 1,024 whole records, and at most 32,768 name bytes.
fn sized_tree(recs: &[u8]) -> bool
    ensures { result ≡ tree_sized recs.now }
{
    if !whole_list(recs, 24, 1024) {
        return false;
    }
    name_sum(recs, recs.len() / 24) <= 32768
}

// The limits on a tree that is only read; where they are passed, refusal 2.
pub fn sized(recs: &[u8], pool: &[u8]) -> bool
    ensures { result ≡ sized recs.now pool.now }
{
    sized_tree(recs) & (pool.len() <= 32768)
}

// The limits on a tree and ids of it, at most MOST: 64 identifiers, or 1,024 selected ids; where they are passed, refusal 2.
pub fn sized_ids<const MOST: usize>(recs: &[u8], pool: &[u8], ids: &[u8]) -> bool
    requires { 4 * MOST ≤ 24576 }
    ensures { result ≡ sized_ids MOST recs.now pool.now ids.now }
{
    sized(recs, pool) & whole_list(ids, 4, MOST)
}

// At most 64 deletions, 64 additions and 64 edits.
fn sized_entries(deletions: &[u8], additions: &[u8], edits: &[u8]) -> bool
    ensures { result ≡ ((whole 8 64 deletions.now && whole 8 64
        additions.now) && whole 16 64 edits.now) }
{
    whole_list(deletions, 8, 64) & whole_list(additions, 8, 64) & whole_list(edits, 16, 64)
}

// The limits on all that an update is lent; where one is passed, refusal 2. The rooms are no part of it.
pub fn sized_update<'a>(trees: &Trees<'a>, lists: &Lists<'a>) -> bool
    ensures { SizedUpdate (trees_in trees.now) (lists_in lists.now) result }
{
    sized_ids::<64>(trees.records, trees.pool, lists.identifiers)
        & (sized_entries(lists.deletions, lists.additions, trees.edits)
            & sized(trees.added_records, trees.request_pool))
}
