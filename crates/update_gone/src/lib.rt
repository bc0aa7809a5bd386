// Which records of the base go in an update: those dropped as a member, and all beneath them.
#![tactic(auto)]

ghost use Rattle.std.specs.Prelude.{◌≡◌, ◌*◌, ◌≤◌, ◌<◌, length};
ghost use Rattle.paper.specs.Answer.{among};
ghost use Rattle.index_ids.specs.Table.{ups_in};
ghost use Rattle.update_dropped.specs.Set.{dropped_ids};
ghost use Rattle.update_gone.specs.Gone.{slot_id, ids_gone, open_under, Rises};

use index_ids::{IndexRows, UPS, cell};
use paper::is_struct;
use record::{kind_at, slot_before};
use update_dropped::Dropped;

// Whether the siblings under a place are open to change: those of the root list, and the members of a struct.
#[tactic(auto, using(crate::proofs::Leaving::opening))]
fn open_under(recs: &[u8], above: usize) -> bool
    requires { above * 24 ≤ length recs.now }
    ensures { result ≡ open_under recs.now above }
{
    match slot_before(above) {
        Some(up) => is_struct(kind_at(recs, up.0)),
        None => true,
    }
}

// Whether the record at a slot goes: it, or a record above it, is dropped as a member of a struct or of the root list.
#[tactic(auto, using(crate::proofs::Leaving::leaving))]
pub fn is_gone(recs: &[u8], n: usize, index: &IndexRows, slot: usize, dropped: &Dropped) -> bool
    requires { Rises recs.now n (ups_in index.now) × (slot < n) }
    ensures { result ≡ among (slot_id recs.now slot) (ids_gone recs.now n
        (dropped_ids dropped.now)) }
{
    let mut place = slot + 1;
    // each turn is a level up, and there are 16 levels
    for _ in 0..16u32 {
        let Some(here) = slot_before(place) else {
            return false;
        };
        let above = cell(index, UPS, here.0);
        if dropped.drops_member(recs, here.0, open_under(recs, above)) {
            return true;
        }
        place = above;
    }
    false
}
