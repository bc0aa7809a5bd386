// id_reassigner.rs, apply_to_identifier_fields: identifier ids mapped to the new ids, in the order given.
#![tactic(auto)]

ghost use Rattle.plan.specs.Table.{numbers};
ghost use Rattle.renumber_identifiers.specs.Mapped.{Findable, Located, Applicable, Applied};

use index_ids::{IndexRows, find_id, place};
use plan::{PlanRows, put_bytes};
use record::word_bytes;
use record_entries::id_at;

// The slot of each identifier's record, found by its id among the m planned records.
pub fn find_identifiers(
    identifiers: &[u8],
    plan: &PlanRows,
    index: &IndexRows,
    m: usize,
    slots: &mut [u16; 64],
)
    requires { Findable identifiers.now (numbers plan.now) index.now m slots.old }
    ensures { Located identifiers.now (numbers plan.now) m
        slots.new }
{
    let n = identifiers.len() / 4;
    for i in 0..n {
        let found = find_id(plan, index, m, id_at(identifiers, i));
        let Some(slot) = found else {
            return;
        };
        slots[i] = slot.0 as u16;
    }
}

// Writes the new id of each of n identifiers, by the slot of its record.
pub fn apply_to_identifier_fields(n: usize, slots: &[u16; 64], plan: &PlanRows, out: &mut [u8])
    requires { Applicable n slots.now out.old }
    ensures { Applied n slots.now (numbers plan.now)
        out.old out.new }
{
    for i in 0..n {
        let k = place(slots[i]);
        put_bytes(out, i * 4, &word_bytes(plan.numbers[k]));
    }
}
