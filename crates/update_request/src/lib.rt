// All that an update is lent, tested before anything is decided: refusals 1 to 6 and 25.
#![tactic(auto)]

ghost use Rattle.std.specs.Prelude.{◌≡◌, ◌≤◌, length};
ghost use Rattle.paper.specs.Promotions.{known_version};
ghost use Rattle.record.specs.Trees.{trees_in, lists_in};
ghost use Rattle.update_request.specs.Opened.{trees_read, listed, readable, opened, Opens};

use record::{Lists, Refusal, Trees};
use record_entries::{PathList, check_entries};
use record_limits::{room, sized_update};
use tree::check_tree;

// Refusals 3 and 4 of the three lists of entries.
fn check_lists<'a>(trees: &Trees<'a>, lists: &Lists<'a>) -> Result<(), Refusal>
    requires { (length (lists_in lists.now).deletions ≤ 512)
        × (length (lists_in lists.now).additions ≤ 512)
        × (length (trees_in trees.now).edits ≤ 1024) }
    ensures { result ≡ listed (trees_in trees.now) (lists_in lists.now) }
{
    let request_pool = trees.request_pool;
    check_entries(lists.deletions, request_pool, PathList::Deletions)?;
    check_entries(lists.additions, request_pool, PathList::Additions)?;
    check_entries(trees.edits, request_pool, PathList::Edits)
}

// Refusals 3 to 6 of the base, then of the additions tree.
fn check_trees<'a>(trees: &Trees<'a>) -> Result<(u32, u32), Refusal>
    requires { (length (trees_in trees.now).records ≤ 24576)
        × (length (trees_in trees.now).added_records ≤ 24576) }
    ensures { result ≡ opened (trees_read (trees_in trees.now)) }
{
    let roots = check_tree(trees.records, trees.pool, 0)?;
    let columns = check_tree(trees.added_records, trees.request_pool, 1)?;
    Ok((roots, columns))
}

// Refusals 3 to 6 of both trees, 3 and 4 of the three lists.
fn check_contents<'a>(trees: &Trees<'a>, lists: &Lists<'a>) -> Result<(u32, u32), Refusal>
    requires { (length (trees_in trees.now).records ≤ 24576)
        × (length (trees_in trees.now).added_records ≤ 24576)
        × (length (lists_in lists.now).deletions ≤ 512)
        × (length (lists_in lists.now).additions ≤ 512)
        × (length (trees_in trees.now).edits ≤ 1024) }
    ensures { result ≡ opened (readable (trees_in trees.now)
        (lists_in lists.now)) }
{
    let counts = check_trees(trees)?;
    check_lists(trees, lists)?;
    Ok(counts)
}

// Whether there is such a format version.
#[tactic(auto, unfolding(paper::specs::Promotions::known_version))]
fn known_version(version: u32) -> bool
    ensures { result ≡ known_version version }
{
    matches!(version, 2 | 3)
}

// How many roots the base has, and how many the additions tree: refusals 1 and 2 for everything, 25, then those of the contents. The
// rooms are the lengths of the output buffers.
#[tactic(auto, using(crate::proofs::Opening::openings))]
pub fn open_update<'a>(
    trees: &Trees<'a>,
    lists: &Lists<'a>,
    version: u32,
    room_records: usize,
    room_names: usize,
) -> Result<(u32, u32), Refusal>
    ensures { Opens (trees_in trees.now) (lists_in lists.now) version
        room_records room_names result }
{
    if !room(room_records, room_names) {
        // refusal 1
        return Err(Refusal {
            number: 1,
            list: 0,
            place: 0,
        });
    }
    if !sized_update(trees, lists) {
        // refusal 2
        return Err(Refusal {
            number: 2,
            list: 0,
            place: 0,
        });
    }
    if !known_version(version) {
        // refusal 25
        return Err(Refusal {
            number: 25,
            list: 0,
            place: 0,
        });
    }
    check_contents(trees, lists)
}
