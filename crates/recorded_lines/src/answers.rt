// The recorded answer of a case beside what the call gave: refusals, and what look-ups find.
use crate::fields::{field, number};
use record::{FieldId, Refusal, Slot};

// Whether a field spells the number.
pub fn is_number(text: &[u8], x: u32) -> bool {
    number(text) == Some(x)
}

// Whether a field spells the slot.
fn is_slot(text: &[u8], slot: Slot) -> bool {
    number(text).is_some_and(|n| n as usize == slot.0)
}

// Whether an answer ends before field k.
pub fn ends(answer: &[u8], k: usize) -> bool {
    field(answer, k).is_empty()
}

// Whether the answer is this refusal: number, list and place.
pub fn is_refusal(answer: &[u8], refusal: Refusal) -> bool {
    matches!(field(answer, 0), b"refused")
        && is_number(field(answer, 1), refusal.number)
        && is_number(field(answer, 2), refusal.list)
        && is_number(field(answer, 3), refusal.place)
        && ends(answer, 4)
}

// Whether the answer is what a look-up found: id and slot, or nothing.
fn is_found(answer: &[u8], found: Option<(FieldId, Slot)>) -> bool {
    match found {
        Some((id, slot)) => {
            matches!(field(answer, 0), b"found")
                && is_number(field(answer, 1), id.0)
                && is_slot(field(answer, 2), slot)
                && ends(answer, 3)
        }
        None => matches!(answer, b"nothing"),
    }
}

// Whether the answer is a look-up's.
pub fn is_sought(answer: &[u8], sought: Result<Option<(FieldId, Slot)>, Refusal>) -> bool {
    match sought {
        Ok(found) => is_found(answer, found),
        Err(refusal) => is_refusal(answer, refusal),
    }
}
