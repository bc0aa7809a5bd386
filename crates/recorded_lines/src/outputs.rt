// The output buffers of a case: filled before the call, and held to the recorded answer after it. Each call is made over two patterns, so
// that a byte that was left can't pass for one that was written.
use crate::answers::is_refusal;
use crate::fields::{field, is_hex, is_spelled};
use record::{Refusal, Sizes};

// Whether every byte of an output buffer from `from` on still holds the pattern.
pub fn untouched(buffer: &[u8], from: usize, pattern: u8) -> bool {
    buffer.iter().skip(from).all(|b| *b == pattern)
}

// Whether an output buffer holds the bytes that a field spells, and beyond them the pattern.
pub fn holds(buffer: &[u8], text: &[u8], pattern: u8) -> bool {
    let n = spelled_count(text);
    n <= buffer.len() && is_hex(text) && is_spelled(buffer, text) && untouched(buffer, n, pattern)
}

// How many bytes a field spells.
fn spelled_count(text: &[u8]) -> usize {
    text.len() / 2
}

// Whether an accepted answer has so many records and name bytes.
fn is_sized(answer: &[u8], sizes: Sizes) -> bool {
    matches!(field(answer, 0), b"ok")
        && sizes.records as usize * 24 == spelled_count(field(answer, 1))
        && sizes.names as usize == spelled_count(field(answer, 2))
}

// Whether an accepted answer is the recorded one: its sizes, its records and its names.
fn is_done(answer: &[u8], sizes: Sizes, records: &[u8], names: &[u8], pattern: u8) -> bool {
    is_sized(answer, sizes)
        && holds(records, field(answer, 1), pattern)
        && holds(names, field(answer, 2), pattern)
}

// Whether the answer is what an operation gave and left in its output buffers. What stands from field 3 on is the operation's own.
pub fn is_changed(
    answer: &[u8],
    changed: Result<Sizes, Refusal>,
    records: &[u8],
    names: &[u8],
    pattern: u8,
) -> bool {
    match changed {
        Ok(sizes) => is_done(answer, sizes, records, names, pattern),
        Err(refusal) => {
            is_refusal(answer, refusal)
                && untouched(records, 0, pattern)
                && untouched(names, 0, pattern)
        }
    }
}
