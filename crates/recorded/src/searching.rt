// Replays the look-up of many ids.
use crate::cases::{Buffers, judged, output_at, read};
use crate::tally::Verdict;
use index_many::find_ids;
use record::Refusal;
use recorded_lines::answers::{ends, is_number, is_refusal};
use recorded_lines::fields::{answer, decode_base, field};
use recorded_lines::outputs::{holds, untouched};

// ids JUDGE RECORDS POOL IDS OUT_SLOTS = answer
pub fn replay(line: &[u8], buffers: &mut Buffers) -> Verdict {
    read(line, b"wwbbbw=")?;
    let slots = output_at(line, 5, buffers.names)?;
    let (base, _) = decode_base(line, buffers.inputs);
    let answer = answer(line);
    judged(|pattern| {
        slots.fill(pattern);
        let searched = find_ids(base.records, base.pool, base.third, slots);
        is_searched(answer, searched, slots, pattern)
    })
}

// Whether the slots and their count are the recorded ones; a refusal leaves the buffer as it was.
fn is_searched(answer: &[u8], searched: Result<u32, Refusal>, slots: &[u8], pattern: u8) -> bool {
    match searched {
        Ok(found) => {
            matches!(field(answer, 0), b"ok")
                && holds(slots, field(answer, 1), pattern)
                && is_number(field(answer, 2), found)
                && ends(answer, 3)
        }
        Err(refusal) => is_refusal(answer, refusal) && untouched(slots, 0, pattern),
    }
}
