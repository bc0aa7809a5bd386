// Replays renumbering.
use crate::cases::{Buffers, judged, number_at, output_at, read};
use crate::tally::Verdict;
use record::{Refusal, Sizes};
use recorded_lines::answers::ends;
use recorded_lines::fields::{answer, decode_base, field};
use recorded_lines::outputs::{holds, is_changed, untouched};
use renumber::renumber;

// renumber JUDGE RECORDS POOL IDENTIFIERS START OUT_RECORDS OUT_NAMES OUT_IDENTIFIERS = answer
pub fn replay(line: &[u8], buffers: &mut Buffers) -> Verdict {
    read(line, b"wwbbbwwww=")?;
    let start = number_at(line, 5)?;
    let records = output_at(line, 6, buffers.records)?;
    let names = output_at(line, 7, buffers.names)?;
    let identifiers = output_at(line, 8, buffers.identifiers)?;
    let (base, _) = decode_base(line, buffers.inputs);
    let answer = answer(line);
    judged(|pattern| {
        records.fill(pattern);
        names.fill(pattern);
        identifiers.fill(pattern);
        let changed = renumber(
            base.records,
            base.pool,
            base.third,
            start,
            records,
            names,
            identifiers,
        );
        is_changed(answer, changed, records, names, pattern)
            && is_mapped(answer, changed, identifiers, pattern)
    })
}

// Whether the identifiers are the recorded ones; a refusal leaves them as they were.
fn is_mapped(
    answer: &[u8],
    changed: Result<Sizes, Refusal>,
    identifiers: &[u8],
    pattern: u8,
) -> bool {
    match changed {
        Ok(_) => holds(identifiers, field(answer, 3), pattern) && ends(answer, 4),
        Err(_) => untouched(identifiers, 0, pattern),
    }
}
