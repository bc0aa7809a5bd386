// The text of a case: fields between single blanks, byte strings in hex, numbers in decimal.
ghost use Rattle.std.specs.Prelude.{◌≡◌, ◌+◌, ◌<◌, length};

// Field k of a line, counted from 0: the part between its blanks, empty where the line has fewer.
pub fn field(line: &[u8], k: usize) -> &[u8] {
    line.split(|b| *b == b' ').nth(k).unwrap_or(b"")
}

// What stands after the sign `=` and its blank: the recorded answer. A line without it has an answer that nothing agrees with.
pub fn answer(line: &[u8]) -> &[u8] {
    let behind = line.splitn(2, |b| *b == b'=').nth(1);
    behind.and_then(|text| text.get(1..)).unwrap_or(b"")
}

// Whether a byte is a digit of lower-case hex. `char::to_digit` would take capitals too.
fn is_digit(b: u8) -> bool {
    matches!(b, b'0'..=b'9' | b'a'..=b'f')
}

// Whether a field spells bytes: pairs of digits, or - for none.
pub fn is_hex(text: &[u8]) -> bool {
    match text {
        b"" => false,
        b"-" => true,
        _ => text.len() % 2 == 0 && text.iter().all(|b| is_digit(*b)),
    }
}

// Whether a field is of a kind: b bytes, w any word or number, = the sign. No enum: a line's form is one word as text, and a list of 13
// cases as cases.
fn fits(text: &[u8], kind: u8) -> bool {
    match kind {
        b'b' => is_hex(text),
        b'w' => !text.is_empty(),
        _ => matches!(text, b"="),
    }
}

// Whether a line starts with fields of these kinds, in order.
pub fn readable(line: &[u8], kinds: &[u8]) -> bool {
    kinds
        .iter()
        .enumerate()
        .all(|(k, kind)| fits(field(line, k), *kind))
}

// The number that a field spells: digits alone, of 32 bits. `str::parse` would take a sign too.
pub fn number(text: &[u8]) -> Option<u32> {
    if text.is_empty() {
        return None;
    }
    text.iter().try_fold(0u32, |sum, b| {
        let digit = char::from(*b).to_digit(10)?;
        sum.checked_mul(10)?.checked_add(digit)
    })
}

// What a hex digit stands for; 0 for any other byte.
fn nibble(b: u8) -> u8
    ensures { result < 16 }
{
    match b {
        b'0'..=b'9' => b - b'0',
        b'a'..=b'f' => b - b'a' + 10,
        _ => 0,
    }
}

// The byte that two digits spell.
fn byte_of(digits: &[u8; 2]) -> u8 {
    nibble(digits[0]) * 16 + nibble(digits[1])
}

// Whether these are the bytes that a field spells, or the first of them.
pub(crate) fn is_spelled(bytes: &[u8], text: &[u8]) -> bool {
    let (pairs, _) = text.as_chunks::<2>();
    bytes
        .iter()
        .zip(pairs)
        .all(|(b, digits)| *b == byte_of(digits))
}

// Puts the bytes that a field spells into the buffer; answers them and the rest of it. A buffer of half a line's length holds all fields.
pub fn decode<'a>(text: &[u8], buffer: &'a mut [u8]) -> (&'a [u8], &'a mut [u8])
    ensures { length result.0.now + length result.1.now ≡ length buffer.old }
{
    let (pairs, _) = text.as_chunks::<2>();
    let n = pairs.len().min(buffer.len());
    let (bytes, rest) = buffer.split_at_mut(n);
    for (b, digits) in bytes.iter_mut().zip(pairs) {
        *b = byte_of(digits);
    }
    (bytes, rest)
}

// The first three inputs of a case: the records, the pool, and the list or the name that follows.
#[derive(Clone, Copy)]
pub struct Base<'a> {
    pub records: &'a [u8],
    pub pool: &'a [u8],
    pub third: &'a [u8],
}

// Puts the first three inputs into the buffer, one after the other; answers them and the rest of it.
pub fn decode_base<'a>(line: &[u8], buffer: &'a mut [u8]) -> (Base<'a>, &'a mut [u8])
    ensures { length result.0.records.now + (length result.0.pool.now + (length result.0.third.now
        + length result.1.now)) ≡ length buffer.old }
{
    let (records, rest) = decode(field(line, 2), buffer);
    let (pool, rest) = decode(field(line, 3), rest);
    let (third, rest) = decode(field(line, 4), rest);
    let base = Base {
        records,
        pool,
        third,
    };
    (base, rest)
}
