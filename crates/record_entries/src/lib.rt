// Path entries of 8 bytes, edits of 16 and ids of 4: reading them, and refusals 3 and 4 over a list of entries.
#![tactic(auto)]

ghost use Rattle.std.specs.Prelude.{◌≡◌, true, ◌+◌, ◌*◌, ◌≤◌, ◌<◌, eqb, length};
ghost use Rattle.paper.specs.Answer.{lowest};
ghost use Rattle.paper.specs.Bytes.{word16, word32, turned};
ghost use Rattle.paper.specs.Lists.{entry_at, ok_deletion, ok_addition, path_in, path_of, entries_ok, id_at};
ghost use Rattle.paper.specs.Lists.{edit_at, ok_edit, edit_in, edit_path, new_name};
ghost use Rattle.record.specs.Says.{tested, checked};
ghost use Rattle.record_entries.specs.Rule.{number_of, width_of, rule_of, inside_of, what_of};

use record::{Refusal, check_each, le16, le32};

// The lists whose entries have paths. They differ in their number, the width of an entry, and what 3 and 4 ask of it.
#[derive(Clone, Copy)]
pub enum PathList {
    Deletions,
    Additions,
    Edits,
}

// What an edit does to its column: a new name, no longer required, a wider type.
#[derive(Clone, Copy)]
pub enum What {
    Rename,
    Relax,
    Widen,
}

// The 32 bits of the i-th id; turned, they are the id of the paper.
pub fn id_at(ids: &[u8], i: usize) -> u32
    requires { i * 4 + 4 ≤ length ids.now }
    ensures { (result ≡ word32 ids.now (i * 4))
        × (id_at ids.now i ≡ turned result) }
{
    le32(ids, i * 4)
}

// Whether an entry has a path.
pub fn has_path(entries: &[u8], k: usize) -> bool
    requires { k * 8 + 8 ≤ length entries.now }
    ensures { result ≡ eqb (entry_at entries.now k).has_path 1 }
{
    entries[k * 8 + 6] == 1
}

// The offset in the request pool of the path of entry k, in a list of entries of a width.
fn path_from<const WIDTH: usize>(entries: &[u8], k: usize) -> usize
    requires { (k * WIDTH + WIDTH ≤ length entries.now) × (8 ≤ WIDTH) }
    ensures { (result ≡ word32 entries.now (k * WIDTH)) × (result < 4294967296) }
{
    le32(entries, k * WIDTH) as usize
}

// The length of that path.
fn path_len<const WIDTH: usize>(entries: &[u8], k: usize) -> usize
    requires { (k * WIDTH + WIDTH ≤ length entries.now) × (8 ≤ WIDTH) }
    ensures { (result ≡ word16 entries.now (k * WIDTH + 4)) × (result < 65536) }
{
    le16(entries, k * WIDTH + 4) as usize
}

// An entry's path: the very part of the request pool that holds it.
pub fn path_at<'a>(pool: &'a [u8], entries: &[u8], k: usize) -> &'a [u8]
    requires { (k * 8 + 8 ≤ length entries.now)
        × (path_in (length pool.now) entries.now k ≡ true) }
    ensures { (result.now ≡ path_of pool.now entries.now k)
        × (result.ref_ptr.0 ≡ pool.entry.ref_ptr.0) × (result.ref_ptr.1 ≡ pool.entry.ref_ptr.1 + (entry_at
        entries.now k).path_at) }
{
    let from = path_from::<8>(entries, k);
    let len = path_len::<8>(entries, k);
    &pool[from..from + len]
}

// Whether a deletion keeps its byte rules: it has a path.
fn deletion_ok(entries: &[u8], k: usize) -> bool
    requires { k * 8 + 8 ≤ length entries.now }
    ensures { result ≡ ok_deletion entries.now k }
{
    (entries[k * 8 + 6] == 1) & (entries[k * 8 + 7] == 0)
}

// Whether an addition keeps its byte rules: without a path its offset and length are 0.
fn addition_ok(entries: &[u8], k: usize) -> bool
    requires { k * 8 + 8 ≤ length entries.now }
    ensures { result ≡ ok_addition entries.now k }
{
    let has = entries[k * 8 + 6];
    let from = path_from::<8>(entries, k);
    let len = path_len::<8>(entries, k);
    ((has == 1) | (has == 0) & (from == 0) & (len == 0)) & (entries[k * 8 + 7] == 0)
}

// What an edit does.
pub fn what_at(edits: &[u8], k: usize) -> What
    requires { k * 16 + 16 ≤ length edits.now }
    ensures { result ≡ what_of (edit_at edits.now k).what }
{
    match edits[k * 16 + 6] {
        1 => What::Rename,
        2 => What::Relax,
        _ => What::Widen,
    }
}

// The offset of an edit's new name.
fn new_name_from(edits: &[u8], k: usize) -> usize
    requires { k * 16 + 16 ≤ length edits.now }
    ensures { (result ≡ (edit_at edits.now k).name_at) × (result < 4294967296) }
{
    le32(edits, k * 16 + 8) as usize
}

// The length of an edit's new name.
pub fn new_name_len(edits: &[u8], k: usize) -> usize
    requires { k * 16 + 16 ≤ length edits.now }
    ensures { (result ≡ (edit_at edits.now k).name_len) × (result ≤ 255) }
{
    usize::from(edits[k * 16 + 12])
}

// The type code that an edit gives: it stands where a new name's offset would.
pub fn new_code_at(edits: &[u8], k: usize) -> u32
    requires { k * 16 + 16 ≤ length edits.now }
    ensures { result ≡ (edit_at edits.now k).code }
{
    le32(edits, k * 16 + 8)
}

// An edit's path: the very part of the request pool that holds it.
pub fn edit_path_at<'a>(pool: &'a [u8], edits: &[u8], k: usize) -> &'a [u8]
    requires { (k * 16 + 16 ≤ length edits.now)
        × (edit_in (length pool.now) edits.now k ≡ true) }
    ensures { result.now ≡ edit_path pool.now edits.now k }
{
    let from = path_from::<16>(edits, k);
    let len = path_len::<16>(edits, k);
    &pool[from..from + len]
}

// The new name that an edit gives: the very part of the request pool that holds it.
pub fn new_name_at<'a>(pool: &'a [u8], edits: &[u8], k: usize) -> &'a [u8]
    requires { (k * 16 + 16 ≤ length edits.now) × ((edit_at edits.now k).what ≡ 1)
        × (edit_in (length pool.now) edits.now k ≡ true) }
    ensures { (result.now ≡ new_name pool.now edits.now k)
        × (result.ref_ptr.0 ≡ pool.entry.ref_ptr.0) × (result.ref_ptr.1 ≡ pool.entry.ref_ptr.1 + (edit_at
        edits.now k).name_at) }
{
    let from = new_name_from(edits, k);
    let len = new_name_len(edits, k);
    &pool[from..from + len]
}

// Whether an edit keeps its byte rules: one that relaxes or widens has no new name.
fn edit_ok(edits: &[u8], k: usize) -> bool
    requires { k * 16 + 16 ≤ length edits.now }
    ensures { result ≡ ok_edit edits.now k }
{
    let what = edits[k * 16 + 6];
    let from = new_name_from(edits, k);
    let len = new_name_len(edits, k);
    ((what == 1) | ((what == 2) & (from == 0) | (what == 3)) & (len == 0))
        & ((edits[k * 16 + 7] == 0) & ((edits[k * 16 + 13] == 0) & (le16(edits, k * 16 + 14) == 0)))
}

// The number of a list in a refusal.
fn number_of(list: PathList) -> u32
    ensures { result ≡ number_of list }
{
    match list {
        PathList::Deletions => 2,
        PathList::Additions => 3,
        PathList::Edits => 6,
    }
}

// How many bytes an entry has.
fn width_of(list: PathList) -> usize
    ensures { (result ≡ width_of list) × (0 < result) }
{
    match list {
        PathList::Deletions => 8,
        PathList::Additions => 8,
        PathList::Edits => 16,
    }
}

// Whether an entry keeps the byte rules of its list.
fn entry_ok(entries: &[u8], k: usize, list: PathList) -> bool
    requires { k * width_of list + width_of list ≤ length entries.now }
    ensures { result ≡ rule_of list entries.now k }
{
    match list {
        PathList::Deletions => deletion_ok(entries, k),
        PathList::Additions => addition_ok(entries, k),
        PathList::Edits => edit_ok(entries, k),
    }
}

// Whether an entry's path lies in a pool of a length. The sum is of 64 bits, so it can't wrap.
fn path_ok(entries: &[u8], pool: usize, k: usize) -> bool
    requires { k * 8 + 8 ≤ length entries.now }
    ensures { result ≡ path_in pool entries.now k }
{
    let from = path_from::<8>(entries, k);
    let len = path_len::<8>(entries, k);
    from + len <= pool
}

// The same of an edit's path, and of its new name if it renames.
fn edit_inside(edits: &[u8], pool: usize, k: usize) -> bool
    requires { k * 16 + 16 ≤ length edits.now }
    ensures { result ≡ edit_in pool edits.now k }
{
    let from = path_from::<16>(edits, k);
    let len = path_len::<16>(edits, k);
    let name = new_name_from(edits, k);
    let name_len = new_name_len(edits, k);
    (from + len <= pool) & ((edits[k * 16 + 6] != 1) | (name + name_len <= pool))
}

// Whether what an entry of a list points to lies in a pool of a length.
fn is_inside(entries: &[u8], pool: usize, k: usize, list: PathList) -> bool
    requires { k * width_of list + width_of list ≤ length entries.now }
    ensures { result ≡ inside_of list pool entries.now k }
{
    match list {
        PathList::Deletions => path_ok(entries, pool, k),
        PathList::Additions => path_ok(entries, pool, k),
        PathList::Edits => edit_inside(entries, pool, k),
    }
}

// The lowest of n entries that breaks its byte rule: refusal 3.
fn check_rules(entries: &[u8], n: usize, number: u32, list: PathList) -> Result<(), Refusal>
    requires { (n * width_of list ≤ length entries.now) × (n ≤ 64) }
    ensures { result ≡ tested 3 number (lowest (rule_of list entries.now) 0 n) }
{
    check_each(0, n, 3, number, |k| entry_ok(entries, k, list))
}

// The lowest of n entries that points past the end of the request pool: refusal 4.
fn check_paths(
    entries: &[u8],
    n: usize,
    number: u32,
    pool: usize,
    list: PathList,
) -> Result<(), Refusal>
    requires { (n * width_of list ≤ length entries.now) × (n ≤ 64) }
    ensures { result ≡ tested 4 number
        (lowest (inside_of list pool entries.now) 0 n) }
{
    check_each(0, n, 4, number, |k| is_inside(entries, pool, k, list))
}

// Refusal 3 over a whole list of entries, then refusal 4. Refusal 2 was tested before, hence the length.
pub fn check_entries(entries: &[u8], request_pool: &[u8], list: PathList) -> Result<(), Refusal>
    requires { length entries.now ≤ 64 * width_of list }
    ensures { result ≡ checked (entries_ok (number_of list) (width_of list) (rule_of list)
        (inside_of list) entries.now request_pool.now) }
{
    let n = entries.len() / width_of(list);
    let number = number_of(list);
    check_rules(entries, n, number, list)?;
    check_paths(entries, n, number, request_pool.len(), list)
}
