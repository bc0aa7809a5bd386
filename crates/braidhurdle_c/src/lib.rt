// The functions that C and Rust call, as the archive exports them. Each calls the library's function of its name and states its
// clauses again: a library's own functions are exported to nobody but Rattle.
#![tactic(auto)]

ghost use Rattle.std.specs.Prelude.{◌≡◌, [], ◌∷◌, length};
ghost use Rattle.paper.specs.Entries.{find_name, find_folded, find_id, find_parent, find_ids, prune_entry, renumber_entry, update_entry};
ghost use Rattle.paper.specs.Outcome.{found, for_records, for_names, for_identifiers, for_slots, Answers};
ghost use Rattle.braidhurdle.specs.Numbers.{found_in, laid, laid_search, full_mode};
ghost use Rattle.braidhurdle.specs.Lent.{stored, lent};
ghost use Rattle.braidhurdle.specs.Name.{found_name, name_numbers};

use braidhurdle::{ChangedNumbers, FoundNumbers, NameNumbers, SearchedNumbers};

// The version of these functions, in its name too: whoever is compiled against other declarations asks for another name, and finds
// none here. A change of any declaration raises both, and so does a call that is answered otherwise than before.
#[unsafe(no_mangle)]
pub extern "C" fn braidhurdle_abi_9() -> u32
    ensures { result ≡ 9 }
{
    braidhurdle::braidhurdle_abi_9()
}

// Drops, adds and edits columns; ids are handed out from `last_id` + 1, and types widened by the steps of `version`.
#[unsafe(no_mangle)]
pub extern "C" fn braidhurdle_update<'a>(
    records: &'a [u8],
    pool: &'a [u8],
    identifiers: &'a [u8],
    last_id: u32,
    version: u32,
    deletions: &'a [u8],
    additions: &'a [u8],
    added_records: &'a [u8],
    edits: &'a [u8],
    request_pool: &'a [u8],
    out_records: &mut [u8],
    out_names: &mut [u8],
) -> ChangedNumbers
    ensures { Answers laid
        (update_entry (stored records.now pool.now last_id)
        (lent identifiers.now version deletions.now additions.now
        added_records.now edits.now request_pool.now
        (length out_records.old) (length out_names.old)))
        (for_records out_records.old ∷ for_names out_names.old ∷ []) result
        (out_records.new ∷ out_names.new ∷ []) }
{
    braidhurdle::braidhurdle_update(
        records,
        pool,
        identifiers,
        last_id,
        version,
        deletions,
        additions,
        added_records,
        edits,
        request_pool,
        out_records,
        out_names,
    )
}

// Keeps the selected columns; not 0 for full mode.
#[unsafe(no_mangle)]
pub extern "C" fn braidhurdle_prune<'a>(
    records: &'a [u8],
    pool: &'a [u8],
    selected: &[u8],
    full: u32,
    out_records: &mut [u8],
    out_names: &mut [u8],
) -> ChangedNumbers
    ensures { Answers laid
        (prune_entry records.now pool.now selected.now
        (full_mode full) (length out_records.old) (length out_names.old))
        (for_records out_records.old ∷ for_names out_names.old ∷ []) result
        (out_records.new ∷ out_names.new ∷ []) }
{
    braidhurdle::braidhurdle_prune(records, pool, selected, full, out_records, out_names)
}

// Numbers every column anew from `start` on; identifiers are mapped in the order given.
#[unsafe(no_mangle)]
pub extern "C" fn braidhurdle_renumber<'a>(
    records: &'a [u8],
    pool: &'a [u8],
    identifiers: &[u8],
    start: u32,
    out_records: &mut [u8],
    out_names: &mut [u8],
    out_identifiers: &mut [u8],
) -> ChangedNumbers
    ensures { Answers laid
        (renumber_entry records.now pool.now identifiers.now start
        (length out_records.old) (length out_names.old)
        (length out_identifiers.old))
        (for_records out_records.old ∷ for_names out_names.old
        ∷ for_identifiers out_identifiers.old ∷ []) result
        (out_records.new ∷ out_names.new ∷ out_identifiers.new ∷ []) }
{
    braidhurdle::braidhurdle_renumber(
        records,
        pool,
        identifiers,
        start,
        out_records,
        out_names,
        out_identifiers,
    )
}

// The column of a full name, or else of a short name.
#[unsafe(no_mangle)]
pub extern "C" fn braidhurdle_find_name<'a>(
    records: &'a [u8],
    pool: &'a [u8],
    name: &[u8],
) -> FoundNumbers
    ensures { result ≡ found_in (found (find_name records.now pool.now
        name.now)) }
{
    braidhurdle::braidhurdle_find_name(records, pool, name)
}

// The same where case is forgotten; refusal 21 where two columns match at the same level.
#[unsafe(no_mangle)]
pub extern "C" fn braidhurdle_find_folded<'a>(
    records: &'a [u8],
    pool: &'a [u8],
    name: &[u8],
) -> FoundNumbers
    ensures { result ≡ found_in (found (find_folded records.now pool.now
        name.now)) }
{
    braidhurdle::braidhurdle_find_folded(records, pool, name)
}

// The slot of an id.
#[unsafe(no_mangle)]
pub extern "C" fn braidhurdle_find_id<'a>(
    records: &'a [u8],
    pool: &'a [u8],
    id: u32,
) -> FoundNumbers
    ensures { result ≡ found_in
        (found (find_id records.now pool.now id)) }
{
    braidhurdle::braidhurdle_find_id(records, pool, id)
}

// The slots of many ids, four bytes each; 4,294,967,295 where there is none.
#[unsafe(no_mangle)]
pub extern "C" fn braidhurdle_find_ids<'a>(
    records: &'a [u8],
    pool: &'a [u8],
    ids: &[u8],
    out_slots: &mut [u8],
) -> SearchedNumbers
    ensures { Answers laid_search
        (find_ids records.now pool.now ids.now
        (length out_slots.old)) (for_slots out_slots.old ∷ []) result
        (out_slots.new ∷ []) }
{
    braidhurdle::braidhurdle_find_ids(records, pool, ids, out_slots)
}

// The column above that of an id.
#[unsafe(no_mangle)]
pub extern "C" fn braidhurdle_find_parent<'a>(
    records: &'a [u8],
    pool: &'a [u8],
    id: u32,
) -> FoundNumbers
    ensures { result ≡ found_in (found (find_parent records.now pool.now
        id)) }
{
    braidhurdle::braidhurdle_find_parent(records, pool, id)
}

// The name of the record at a slot, as a part of the lent pool. That record alone is read; the tree is not tested.
#[unsafe(no_mangle)]
pub extern "C" fn braidhurdle_found_name(records: &[u8], pool: &[u8], slot: u32) -> NameNumbers
    ensures { result ≡ name_numbers (found_name records.now pool.now slot) }
{
    braidhurdle::braidhurdle_found_name(records, pool, slot)
}
