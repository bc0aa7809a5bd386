// Replays the lister.
use crate::cases::{judged, read};
use crate::tally::Verdict;
use lister_lines::listing;
use recorded_lines::answers::ends;
use recorded_lines::fields::{answer, decode, field};
use recorded_lines::outputs::{holds, untouched};

// list JUDGE RECORDS POOL = answer
pub fn replay(line: &[u8], inputs: &mut [u8], out: &mut [u8]) -> Verdict {
    read(line, b"wwbb=")?;
    let (records, rest) = decode(field(line, 2), inputs);
    let (pool, _) = decode(field(line, 3), rest);
    let answer = answer(line);
    judged(|pattern| {
        out.fill(pattern);
        let n = listing(records, pool, 0, out);
        is_listed(answer, out, n, pattern)
    })
}

// Whether the first n bytes are the recorded text, or the line of the recorded refusal, and beyond them stands the pattern.
fn is_listed(answer: &[u8], out: &[u8], n: usize, pattern: u8) -> bool {
    let Some(written) = out.get(..n) else {
        return false;
    };
    match field(answer, 0) {
        b"ok" => {
            let text = field(answer, 1);
            n == text.len() / 2 && holds(out, text, pattern) && ends(answer, 2)
        }
        _ => is_refusal_line(answer, written) && untouched(out, n, pattern),
    }
}

// Whether a text is the line of the recorded refusal, and no more.
fn is_refusal_line(answer: &[u8], text: &[u8]) -> bool {
    match text.split_last() {
        Some((b'\n', line)) => { !line.contains(&b'\n') && spells(answer, line) && ends(answer, 4) }
        _ => false,
    }
}

// Whether a line spells the refusal of an answer: number, list and place.
fn spells(answer: &[u8], line: &[u8]) -> bool {
    matches!(field(answer, 0), b"refused")
        && matches!(field(line, 0), b"refused")
        && field(line, 1) == field(answer, 1)
        && matches!(field(line, 2), b"at")
        && field(line, 3) == field(answer, 2)
        && field(line, 4) == field(answer, 3)
        && ends(line, 5)
}
