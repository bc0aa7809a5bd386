// The functions that braidhurdle_c exports to C and Rust: thin, numbers and slices. Each lays its entry's answer out as numbers.
#![tactic(auto)]

ghost use Rattle.std.specs.Prelude.{◌≡◌, [], ◌∷◌, length};
ghost use Rattle.paper.specs.Entries.{find_name, find_folded, find_id, find_parent, find_ids, prune_entry, renumber_entry, update_entry};
ghost use Rattle.paper.specs.Outcome.{found, for_records, for_names, for_identifiers, for_slots, Answers};
ghost use Rattle.braidhurdle.specs.Numbers.{
  found_in,
  found_numbers,
  sought_numbers,
  changed_numbers,
  laid,
  searched_numbers,
  laid_search,
  full_mode,
};
ghost use Rattle.braidhurdle.specs.Lent.{stored, lent};
ghost use Rattle.braidhurdle.specs.Name.{found_name, name_numbers};

use index::{find_id, find_name, find_parent};
use index_folded::find_folded;
use index_many::find_ids;
use prune::prune;
use record::{FieldId, Lists, Refusal, Sizes, Slot, Trees, le32, name_ok};
use renumber::renumber;
use update::update;

// The answer of update, pruning and renumbering. On a refusal the last four are 0. C has no Result: `refusal` is a number, 0 for none.
#[repr(C)]
#[derive(Clone, Copy, Default)]
pub struct ChangedNumbers {
    pub refusal: u32,
    pub list: u32,
    pub place: u32,
    pub records: u32,
    pub names: u32,
    pub last_id: u32,
    pub visited: u32,
}

// The answer of a look-up. On a refusal, and where nothing is found, id and slot are 0. C has no Option: `found` is 1 or 0.
#[repr(C)]
#[derive(Clone, Copy, Default)]
pub struct FoundNumbers {
    pub refusal: u32,
    pub list: u32,
    pub place: u32,
    pub found: u32,
    pub id: u32,
    pub slot: u32,
}

// The answer of a search for many ids. On a refusal the last one is 0. C has no Result: `refusal` is a number, 0 for none.
#[repr(C)]
#[derive(Clone, Copy, Default)]
pub struct SearchedNumbers {
    pub refusal: u32,
    pub list: u32,
    pub place: u32,
    pub found: u32, // so many of the ids
}

// Where a name stands in the lent pool. On a refusal, and where there is no record, offset and length are 0. C has no Option: `found` is 1
// or 0.
#[repr(C)]
#[derive(Clone, Copy, Default)]
pub struct NameNumbers {
    pub refusal: u32,
    pub list: u32,
    pub place: u32,
    pub found: u32,
    pub offset: u32,
    pub length: u32,
}

impl From<Result<Sizes, Refusal>> for ChangedNumbers {
    ghost from_gives = { λ changed numbers. numbers ≡ changed_numbers changed };

    fn from(changed: Result<Sizes, Refusal>) -> ChangedNumbers {
        match changed {
            Ok(sizes) => ChangedNumbers {
                records: sizes.records,
                names: sizes.names,
                last_id: sizes.last_id,
                visited: sizes.visited,
                ..ChangedNumbers::default()
            },
            Err(refusal) => ChangedNumbers {
                refusal: refusal.number,
                list: refusal.list,
                place: refusal.place,
                ..ChangedNumbers::default()
            },
        }
    }
}

impl From<Option<(FieldId, Slot)>> for FoundNumbers {
    ghost from_gives = { λ found numbers. numbers ≡ found_numbers found };

    fn from(found: Option<(FieldId, Slot)>) -> FoundNumbers {
        match found {
            Some((id, slot)) => FoundNumbers {
                found: 1,
                id: id.0,
                slot: (slot.0 % 4294967296) as u32,
                ..FoundNumbers::default()
            },
            None => FoundNumbers::default(),
        }
    }
}

impl From<Result<Option<(FieldId, Slot)>, Refusal>> for FoundNumbers {
    ghost from_gives = { λ sought numbers. numbers ≡ sought_numbers sought };

    fn from(sought: Result<Option<(FieldId, Slot)>, Refusal>) -> FoundNumbers {
        match sought {
            Ok(found) => FoundNumbers::from(found),
            Err(refusal) => FoundNumbers {
                refusal: refusal.number,
                list: refusal.list,
                place: refusal.place,
                ..FoundNumbers::default()
            },
        }
    }
}

impl From<Result<u32, Refusal>> for SearchedNumbers {
    ghost from_gives = { λ searched numbers. numbers ≡ searched_numbers searched };

    fn from(searched: Result<u32, Refusal>) -> SearchedNumbers {
        match searched {
            Ok(found) => SearchedNumbers {
                found,
                ..SearchedNumbers::default()
            },
            Err(refusal) => SearchedNumbers {
                refusal: refusal.number,
                list: refusal.list,
                place: refusal.place,
                ..SearchedNumbers::default()
            },
        }
    }
}

// The version of these functions, in its name too: whoever is compiled against other declarations asks for another name, and finds
// none here. A change of any declaration raises both, and so does a call that is answered otherwise than before.
pub fn braidhurdle_abi_9() -> u32
    ensures { result ≡ 9 }
{
    9
}

// Drops, adds and edits columns; ids are handed out from `last_id` + 1, and types widened by the steps of `version`.
pub fn braidhurdle_update<'a>(
    records: &'a [u8],
    pool: &'a [u8],
    identifiers: &'a [u8],
    last_id: u32,
    version: u32,
    deletions: &'a [u8],
    additions: &'a [u8],
    added_records: &'a [u8],
    edits: &'a [u8],
    request_pool: &'a [u8],
    out_records: &mut [u8],
    out_names: &mut [u8],
) -> ChangedNumbers
    ensures { Answers laid
        (update_entry (stored records.now pool.now last_id)
        (lent identifiers.now version deletions.now additions.now
        added_records.now edits.now request_pool.now
        (length out_records.old) (length out_names.old)))
        (for_records out_records.old ∷ for_names out_names.old ∷ []) result
        (out_records.new ∷ out_names.new ∷ []) }
{
    let trees = Trees {
        records,
        pool,
        added_records,
        request_pool,
        edits,
    };
    let lists = Lists {
        identifiers,
        deletions,
        additions,
    };
    update(&trees, &lists, last_id, version, out_records, out_names).into()
}

// Keeps the selected columns; not 0 for full mode.
pub fn braidhurdle_prune<'a>(
    records: &'a [u8],
    pool: &'a [u8],
    selected: &[u8],
    full: u32,
    out_records: &mut [u8],
    out_names: &mut [u8],
) -> ChangedNumbers
    ensures { Answers laid
        (prune_entry records.now pool.now selected.now
        (full_mode full) (length out_records.old) (length out_names.old))
        (for_records out_records.old ∷ for_names out_names.old ∷ []) result
        (out_records.new ∷ out_names.new ∷ []) }
{
    prune(records, pool, selected, full != 0, out_records, out_names).into()
}

// Numbers every column anew from `start` on; identifiers are mapped in the order given.
pub fn braidhurdle_renumber<'a>(
    records: &'a [u8],
    pool: &'a [u8],
    identifiers: &[u8],
    start: u32,
    out_records: &mut [u8],
    out_names: &mut [u8],
    out_identifiers: &mut [u8],
) -> ChangedNumbers
    ensures { Answers laid
        (renumber_entry records.now pool.now identifiers.now start
        (length out_records.old) (length out_names.old)
        (length out_identifiers.old))
        (for_records out_records.old ∷ for_names out_names.old
        ∷ for_identifiers out_identifiers.old ∷ []) result
        (out_records.new ∷ out_names.new ∷ out_identifiers.new ∷ []) }
{
    renumber(
        records,
        pool,
        identifiers,
        start,
        out_records,
        out_names,
        out_identifiers,
    )
    .into()
}

// The column of a full name, or else of a short name.
#[tactic(auto, using(crate::proofs::Telling::telling))]
pub fn braidhurdle_find_name<'a>(records: &'a [u8], pool: &'a [u8], name: &[u8]) -> FoundNumbers
    ensures { result ≡ found_in (found (find_name records.now pool.now
        name.now)) }
{
    find_name(records, pool, name).into()
}

// The same where case is forgotten; refusal 21 where two columns match at the same level.
#[tactic(auto, using(crate::proofs::Telling::telling))]
pub fn braidhurdle_find_folded<'a>(records: &'a [u8], pool: &'a [u8], name: &[u8]) -> FoundNumbers
    ensures { result ≡ found_in (found (find_folded records.now pool.now
        name.now)) }
{
    find_folded(records, pool, name).into()
}

// The slot of an id.
#[tactic(auto, using(crate::proofs::Telling::telling))]
pub fn braidhurdle_find_id<'a>(records: &'a [u8], pool: &'a [u8], id: u32) -> FoundNumbers
    ensures { result ≡ found_in
        (found (find_id records.now pool.now id)) }
{
    find_id(records, pool, FieldId(id)).into()
}

// The slots of many ids, four bytes each; 4,294,967,295 where there is none.
pub fn braidhurdle_find_ids<'a>(
    records: &'a [u8],
    pool: &'a [u8],
    ids: &[u8],
    out_slots: &mut [u8],
) -> SearchedNumbers
    ensures { Answers laid_search
        (find_ids records.now pool.now ids.now
        (length out_slots.old)) (for_slots out_slots.old ∷ []) result
        (out_slots.new ∷ []) }
{
    find_ids(records, pool, ids, out_slots).into()
}

// The column above that of an id.
#[tactic(auto, using(crate::proofs::Telling::telling))]
pub fn braidhurdle_find_parent<'a>(records: &'a [u8], pool: &'a [u8], id: u32) -> FoundNumbers
    ensures { result ≡ found_in (found (find_parent records.now pool.now
        id)) }
{
    find_parent(records, pool, FieldId(id)).into()
}

// The name of the record at a slot, as a part of the lent pool. That record alone is read; the tree is not tested.
#[tactic(auto, using(crate::proofs::Naming::naming))]
pub fn braidhurdle_found_name(records: &[u8], pool: &[u8], slot: u32) -> NameNumbers
    ensures { result ≡ name_numbers (found_name records.now pool.now slot) }
{
    let k = slot as usize;
    if records.len() / 24 <= k {
        return NameNumbers::default();
    }
    if !name_ok(records, pool.len(), k) {
        return NameNumbers {
            refusal: 4, // refusal 4
            place: slot,
            ..NameNumbers::default()
        };
    }
    NameNumbers {
        found: 1,
        offset: le32(records, k * 24 + 4),
        length: u32::from(records[k * 24 + 8]),
        ..NameNumbers::default()
    }
}
