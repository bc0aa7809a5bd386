// Replays updates.
use crate::cases::{Buffers, judged, number_at, output_at, read};
use crate::tally::{Fault, Verdict};
use record::{Lists, Refusal, Sizes, Trees};
use recorded_lines::answers::{ends, is_number};
use recorded_lines::fields::{answer, decode, decode_base, field, readable};
use recorded_lines::outputs::is_changed;
use update::update;

// The format version that a line names, or 2. A line with edits has a field more before the sign, one that names another version two more.
fn version_in(line: &[u8]) -> Result<u32, Fault> {
    if readable(line, b"wwbbbwbbbbwwbw=") {
        return number_at(line, 13);
    }
    if !readable(line, b"wwbbbwbbbbwwb=") {
        read(line, b"wwbbbwbbbbww=")?;
    }
    Ok(2)
}

// update JUDGE RECORDS POOL IDENTIFIERS LAST_ID DELETIONS ADDITIONS ADDED_RECORDS REQUEST_POOL OUT_RECORDS OUT_NAMES = answer
// with EDITS behind OUT_NAMES where there are any, and VERSION behind them where it is not 2
pub fn replay(line: &[u8], buffers: &mut Buffers) -> Verdict {
    let version = version_in(line)?;
    let last_id = number_at(line, 5)?;
    let records = output_at(line, 10, buffers.records)?;
    let names = output_at(line, 11, buffers.names)?;
    let (trees, lists) = request_in(line, buffers.inputs);
    let answer = answer(line);
    judged(|pattern| {
        records.fill(pattern);
        names.fill(pattern);
        let changed = update(&trees, &lists, last_id, version, records, names);
        is_changed(answer, changed, records, names, pattern) && is_counted(answer, changed)
    })
}

// The inputs of a line, in the buffer one after the other. Where there are no edits the sign stands in their place, which spells no bytes.
fn request_in<'a>(line: &[u8], buffer: &'a mut [u8]) -> (Trees<'a>, Lists<'a>) {
    let (base, rest) = decode_base(line, buffer);
    let (deletions, rest) = decode(field(line, 6), rest);
    let (additions, rest) = decode(field(line, 7), rest);
    let (added_records, rest) = decode(field(line, 8), rest);
    let (request_pool, rest) = decode(field(line, 9), rest);
    let (edits, _) = decode(field(line, 12), rest);
    let trees = Trees {
        records: base.records,
        pool: base.pool,
        added_records,
        request_pool,
        edits,
    };
    let lists = Lists {
        identifiers: base.third,
        deletions,
        additions,
    };
    (trees, lists)
}

// Whether the last id consumed and the number of records visited are the recorded ones.
fn is_counted(answer: &[u8], changed: Result<Sizes, Refusal>) -> bool {
    match changed {
        Ok(sizes) => {
            is_number(field(answer, 3), sizes.last_id)
                && is_number(field(answer, 4), sizes.visited)
                && ends(answer, 5)
        }
        Err(_) => true,
    }
}
