// Replays pruning.
use crate::cases::{Buffers, judged, number_at, output_at, read};
use crate::tally::Verdict;
use prune::prune;
use record::{Refusal, Sizes};
use recorded_lines::answers::ends;
use recorded_lines::fields::{answer, decode_base};
use recorded_lines::outputs::is_changed;

// prune JUDGE RECORDS POOL SELECTED FULL OUT_RECORDS OUT_NAMES = answer
pub fn replay(line: &[u8], buffers: &mut Buffers) -> Verdict {
    read(line, b"wwbbbwww=")?;
    let full = number_at(line, 5)? != 0;
    let records = output_at(line, 6, buffers.records)?;
    let names = output_at(line, 7, buffers.names)?;
    let (base, _) = decode_base(line, buffers.inputs);
    let answer = answer(line);
    judged(|pattern| {
        records.fill(pattern);
        names.fill(pattern);
        let changed = prune(base.records, base.pool, base.third, full, records, names);
        is_changed(answer, changed, records, names, pattern) && closes(answer, changed)
    })
}

// Whether an accepted answer ends after its names.
fn closes(answer: &[u8], changed: Result<Sizes, Refusal>) -> bool {
    changed.is_err() || ends(answer, 3)
}
