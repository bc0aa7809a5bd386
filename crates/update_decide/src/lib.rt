// One deletion, one addition: what a look-up's answer decides. Refusals 11 to 18, and 22.
#![tactic(auto)]

ghost use Rattle.std.specs.Prelude.{◌≡◌, true, ◌+◌, ◌*◌, ◌≤◌, ◌<◌, length};
ghost use Rattle.update_dropped.specs.Set.{dropped_ids};
ghost use Rattle.index_ids.specs.Table.{ups_in};
ghost use Rattle.update_gone.specs.Gone.{Rises};
ghost use Rattle.paper.specs.Answer.{among};
ghost use Rattle.paper.specs.Bytes.{turned, in_pool};
ghost use Rattle.paper.specs.Lists.{id_list};
ghost use Rattle.record.specs.Says.{checked};
ghost use Rattle.update_decide.specs.Entry.{Deleted, unbarred, goes, AtRoot, taken_at, under_place, Sited, FoundSited, UnderParent, freshly};

use index_ids::IndexRows;
use record::{FieldId, Refusal, Slot, flags_at, has_dot, id_bits_at, name_at, turn_back};
use record_entries::id_at;
use update_dropped::Dropped;
use update_gone::is_gone;
use update_parents::{name_taken, resolve_parent_target};

// Whether an id is among the identifiers.
#[tactic(auto, using(crate::proofs::Deleting::seeking))]
pub fn is_identifier(identifiers: &[u8], id: FieldId) -> bool
    requires { length identifiers.now ≤ 256 }
    ensures { result ≡ among (turned id.0) (id_list identifiers.now) }
{
    for i in 0..identifiers.len() / 4 {
        if id.0 == id_at(identifiers, i) {
            return true;
        }
    }
    false
}

// One deletion: the id that it drops, of a found column (else refusal 11) that is no identifier (else 12).
pub fn drop_one(
    found: Option<(FieldId, Slot)>,
    identifiers: &[u8],
    place: u32,
) -> Result<FieldId, Refusal>
    requires { length identifiers.now ≤ 256 }
    ensures { Deleted found (id_list identifiers.now) place result }
{
    let Some((id, _)) = found else {
        // refusal 11
        return Err(Refusal {
            number: 11,
            list: 2,
            place,
        });
    };
    if is_identifier(identifiers, id) {
        // refusal 12
        return Err(Refusal {
            number: 12,
            list: 2,
            place,
        });
    }
    Ok(id)
}

// Refusals 13 and 14 of the added column at a slot: a dot in its own name; required, without initial default.
#[tactic(auto, using(crate::proofs::Placing::adding))]
pub fn check_added(recs: &[u8], pool: &[u8], slot: usize, place: u32) -> Result<(), Refusal>
    requires { (slot * 24 + 24 ≤ length recs.now)
        × (in_pool (length pool.now) recs.now slot ≡ true) }
    ensures { result ≡ checked (unbarred pool.now recs.now slot place) }
{
    if has_dot(name_at(pool, recs, slot)) {
        // refusal 13
        return Err(Refusal {
            number: 13,
            list: 3,
            place,
        });
    }
    if flags_at(recs, slot) == 1 {
        // refusal 14
        return Err(Refusal {
            number: 14,
            list: 3,
            place,
        });
    }
    Ok(())
}

// A root addition goes to the root list (`None`), unless look-up found its name undeleted: refusal 17.
pub fn place_at_root(
    found: Option<(FieldId, Slot)>,
    place: u32,
    dropped: &Dropped,
) -> Result<Option<u64>, Refusal>
    ensures { AtRoot found (dropped_ids dropped.now) place result }
{
    let Some((id, _)) = found else {
        return Ok(None);
    };
    if dropped.holds(id) {
        return Ok(None);
    }
    // refusal 17
    Err(Refusal {
        number: 17,
        list: 3,
        place,
    })
}

// The base, to whose structs additions go: its records and how many they are, the pool of their names, its index, and the ids that go.
#[derive(Clone, Copy)]
pub struct Base<'a> {
    pub records: &'a [u8],
    pub n: usize,
    pub pool: &'a [u8],
    pub index: &'a IndexRows,
    pub dropped: &'a Dropped,
}

impl<'a> Base<'a> {
    // Whether the name is taken in the struct at a slot: a member that stays has it. In a dropped struct every name is free.
    #[tactic(auto, unfolding(crate::specs::Entry::taken_at))]
    fn is_taken(&self, slot: usize, name: &[u8]) -> bool
        requires { Sited self.now.pool.now self.now.records.now self.now.n slot }
        ensures { result ≡ taken_at self.now.pool.now self.now.records.now self.now.n slot
            (dropped_ids self.now.dropped.now) name.now }
    {
        !self.dropped.holds(FieldId(id_bits_at(self.records, slot)))
            && name_taken(self.records, self.pool, self.n, slot, name, self.dropped)
    }

    // The struct at a slot takes an addition unless it goes (refusal 22), or the name is taken in it (17).
    #[tactic(auto, using(crate::proofs::Placing::joining))]
    fn join(&self, slot: usize, name: &[u8], place: u32) -> Result<Option<u64>, Refusal>
        requires { Sited self.now.pool.now self.now.records.now self.now.n slot
            × Rises self.now.records.now self.now.n (ups_in self.now.index.now) }
        ensures { result ≡ goes (under_place self.now.pool.now self.now.records.now self.now.n slot
            (dropped_ids self.now.dropped.now) place name.now) }
    {
        if is_gone(self.records, self.n, self.index, slot, self.dropped) {
            // refusal 22
            return Err(Refusal {
                number: 22,
                list: 3,
                place,
            });
        }
        if self.is_taken(slot, name) {
            // refusal 17
            return Err(Refusal {
                number: 17,
                list: 3,
                place,
            });
        }
        Ok(Some(u64::from(id_bits_at(self.records, slot))))
    }

    // An addition under a parent goes to the struct that its path leads to by one step, told by the bits of its id: refusals 15 (no
    // parent), 16 (no struct), 22 and 17.
    pub fn place_under(
        &self,
        found: Option<(FieldId, Slot)>,
        name: &[u8],
        place: u32,
    ) -> Result<Option<u64>, Refusal>
        requires { FoundSited self.now.pool.now self.now.records.now self.now.n found
            × Rises self.now.records.now self.now.n (ups_in self.now.index.now) }
        ensures { UnderParent found self.now.pool.now self.now.records.now self.now.n
            (dropped_ids self.now.dropped.now) place name.now result }
    {
        let Some((_, parent)) = found else {
            // refusal 15
            return Err(Refusal {
                number: 15,
                list: 3,
                place,
            });
        };
        let Some(slot) = resolve_parent_target(self.records, self.n, parent.0) else {
            // refusal 16
            return Err(Refusal {
                number: 16,
                list: 3,
                place,
            });
        };
        self.join(slot.0, name, place)
    }
}

// The ids of an addition, in preorder after the last one that was consumed, shifted by 2^31: the bits of the first, and the last; or
// refusal 18.
#[tactic(auto, using(crate::proofs::Placing::assigning))]
pub fn assign_fresh_ids(last: u64, records: usize, place: u32) -> Result<(u32, u64), Refusal>
    requires { (last < 4294967296) × (records ≤ 1024) }
    ensures { result ≡ freshly last records place }
{
    let end = last + records as u64;
    if 4294967295 < end {
        // refusal 18
        return Err(Refusal {
            number: 18,
            list: 3,
            place,
        });
    }
    Ok((turn_back(last + 1), end))
}
