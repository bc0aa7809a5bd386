// Numbers and their bytes. Records of 24 bytes: reading them, and refusals 3 and 4 over a list of them.
#![tactic(auto)]

ghost use Rattle.std.specs.Prelude.{ℕ, Bool, ◌≡◌, ◌+◌, ◌*◌, ◌%◌, ◌<◌, ◌≤◌, true, [], length};
ghost use Rattle.std.proofs.Math.Option.{none};
ghost use Rattle.paper.specs.Answer.{among, lowest, same};
ghost use Rattle.paper.specs.Bytes.{word16, word32, turned, ok_bytes, in_pool, name_of, rec_at, kind_at, kind_from, kids_at};
ghost use Rattle.paper.specs.Encode.{bytes32};
ghost use Rattle.record.specs.Says.{tested, slot_before};
ghost use Rattle.record.specs.Sifts.{kept, Sifts};
ghost use Rattle.record.specs.Trees.{trees_in, alone};

use paper::Kind;

// The bit pattern of an id; its signed reading is what people see.
#[derive(Clone, Copy, PartialEq, Eq, PartialOrd, Ord)]
pub struct FieldId(pub u32);

// A place in today's list of records.
#[derive(Clone, Copy, PartialEq, Eq, PartialOrd, Ord)]
pub struct Slot(pub usize);

// What is lent as trees: the base's records and their pool, the added records and the request's pool, and the edits, whose new names
// are parts of that pool.
#[derive(Clone, Copy)]
pub struct Trees<'a> {
    pub records: &'a [u8],
    pub pool: &'a [u8],
    pub added_records: &'a [u8],
    pub request_pool: &'a [u8],
    pub edits: &'a [u8],
}

impl<'a> Trees<'a> {
    // One tree, lent as both, with no edits.
    pub fn alone(records: &'a [u8], pool: &'a [u8]) -> Trees<'a>
        ensures { trees_in result ≡ alone records.now pool.now }
    {
        Trees {
            records,
            pool,
            added_records: records,
            request_pool: pool,
            edits: b"",
        }
    }
}

// The lists of an update's request.
#[derive(Clone, Copy)]
pub struct Lists<'a> {
    pub identifiers: &'a [u8],
    pub deletions: &'a [u8],
    pub additions: &'a [u8],
}

// So many trees from a slot on, with so many levels left for them.
#[derive(Clone, Copy)]
pub struct Siblings {
    pub slot: usize,
    pub count: u32,
    pub levels: usize,
}

// Why a request is turned down: 01's number, the list and the place in it.
// `number` is no enum: rules have numbers in every definition, on every page and in C.
#[derive(Clone, Copy, PartialEq, Eq)]
pub struct Refusal {
    pub number: u32,
    pub list: u32,
    pub place: u32,
}

// What one pass tells of records: the first `fine` keep 3 and 4, and where `nested` is false none of all is a list or a map.
#[derive(Clone, Copy)]
pub struct Sifted {
    pub fine: usize,
    pub nested: bool,
}

// How much an accepted answer holds: records, name bytes; and for an update the last id consumed and the records visited.
#[derive(Clone, Copy, PartialEq, Eq)]
pub struct Sizes {
    pub records: u32,
    pub names: u32,
    pub last_id: u32,
    pub visited: u32,
}

// The low 32 bits of a number.
pub fn low_32(x: u64) -> u32
    ensures { result ≡ x % 4294967296 }
{
    (x & 0xffff_ffff) as u32
}

// The bits of an id from the id plus 2^31, and the other way round.
pub fn turn(x: u32) -> u32
    ensures { result ≡ turned x }
{
    x.wrapping_add(2147483648)
}

// The bits of an id that is counted on in 64 bits, plus 2^31.
pub fn turn_back(x: u64) -> u32
    ensures { result ≡ turned x }
{
    turn(low_32(x))
}

// The four bytes of a word, the lowest first.
pub fn word_bytes(x: u32) -> [u8; 4]
    ensures { (result ≡ bytes32 x []) × (x < 4294967296) }
{
    x.to_le_bytes()
}

// The slot before a place.
pub fn slot_before(at: usize) -> Option<Slot>
    ensures { result ≡ slot_before at }
{
    at.checked_sub(1).map(Slot)
}

// The little-endian word of 16 bits at a place.
pub fn le16(s: &[u8], at: usize) -> u32
    requires { at + 2 ≤ length s.now }
    ensures { (result ≡ word16 s.now at) × (result < 65536) }
{
    u16::from_le_bytes([s[at], s[at + 1]]) as u32
}

// The little-endian word of 32 bits at a place.
pub fn le32(s: &[u8], at: usize) -> u32
    requires { at + 4 ≤ length s.now }
    ensures { result ≡ word32 s.now at }
{
    u32::from_le_bytes([s[at], s[at + 1], s[at + 2], s[at + 3]])
}

// The bits of a record's id.
pub fn id_bits_at(recs: &[u8], slot: usize) -> u32
    requires { slot * 24 + 24 ≤ length recs.now }
    ensures { result ≡ (rec_at recs.now slot).id }
{
    le32(recs, slot * 24)
}

// The offset of a record's name in its pool.
pub fn name_from(recs: &[u8], slot: usize) -> usize
    requires { slot * 24 + 24 ≤ length recs.now }
    ensures { (result ≡ (rec_at recs.now slot).name_at) × (result < 4294967296) }
{
    le32(recs, slot * 24 + 4) as usize
}

// The length of a record's name.
pub fn name_len_at(recs: &[u8], slot: usize) -> usize
    requires { slot * 24 + 24 ≤ length recs.now }
    ensures { (result ≡ (rec_at recs.now slot).name_len) × (result ≤ 255) }
{
    usize::from(recs[slot * 24 + 8])
}

// The flags of a record.
pub fn flags_at(recs: &[u8], slot: usize) -> u8
    requires { slot * 24 + 24 ≤ length recs.now }
    ensures { result ≡ (rec_at recs.now slot).flags }
{
    recs[slot * 24 + 10]
}

// The type code of a record.
pub fn code_at(recs: &[u8], slot: usize) -> u32
    requires { slot * 24 + 24 ≤ length recs.now }
    ensures { result ≡ (rec_at recs.now slot).code }
{
    le32(recs, slot * 24 + 16)
}

// The attribute of a record.
pub fn attribute_at(recs: &[u8], slot: usize) -> u32
    requires { slot * 24 + 24 ≤ length recs.now }
    ensures { result ≡ (rec_at recs.now slot).attribute }
{
    le32(recs, slot * 24 + 20)
}

// Number of direct children of a record.
pub fn kids_at(recs: &[u8], slot: usize) -> u32
    requires { slot * 24 + 24 ≤ length recs.now }
    ensures { (result ≡ kids_at recs.now slot) × (result < 65536) }
{
    le16(recs, slot * 24 + 12)
}

// The kind that a byte stands for; 3 and above are maps, and refusal 3 turns down those above.
pub fn kind_of(b: u8) -> Kind
    ensures { result ≡ kind_from b }
{
    if b == 0 {
        return Kind::Primitive;
    }
    if b == 1 {
        return Kind::Structure;
    }
    if b == 2 {
        return Kind::Listing;
    }
    Kind::Mapping
}

// The kind of a record.
pub fn kind_at(recs: &[u8], slot: usize) -> Kind
    requires { slot * 24 + 24 ≤ length recs.now }
    ensures { result ≡ kind_at recs.now slot }
{
    kind_of(recs[slot * 24 + 9])
}

// Whether a record keeps its byte rules, by words: bytes 8 to 11 are below 2^18 where flags are below 4 and byte 11 is 0, and bytes
// 12 to 15 are below 2^16 where 14 and 15 are 0. A list has one child and a map two: their kind less 1.
pub fn bytes_ok(recs: &[u8], slot: usize) -> bool
    requires { slot * 24 + 24 ≤ length recs.now }
    ensures { result ≡ ok_bytes recs.now slot }
{
    let at = slot * 24;
    let kind = recs[at + 9];
    let head = le32(recs, at + 8);
    let kids = le32(recs, at + 12);
    // most are primitives: the two words are one of 64 bits
    if kind == 0 {
        return u64::from(head) + u64::from(kids) * 4294967296 < 262144;
    }
    let code = le32(recs, at + 16);
    ((kind == 1) | (kind < 4) & (kids == u32::from(kind) - 1))
        & (head < 262144)
        & (kids < 65536)
        & (code == 0)
}

// The lowest place below n at which a test fails, where none before `from` does: refusal `number` of a list.
pub fn check_each<F: Fn(usize) -> bool>(
    from: usize,
    n: usize,
    number: u32,
    list: u32,
    holds: F,
) -> Result<(), Refusal>
    requires few { (from ≤ n) × (n ≤ 1024) }
    requires callable { (i : ℕ) → i < n → F.pre holds i }
    ensures { (test : ℕ → Bool) → ((i : ℕ) (b : Bool) → i < n → F.post holds i b → b ≡ test i)
        → lowest test 0 from ≡ none → result ≡ tested number list (lowest test 0 n) }
{
    for i in from..n {
        if !holds(i) {
            return Err(Refusal {
                number,
                list,
                place: i as u32,
            });
        }
    }
    Ok(())
}

// The lowest of n records that breaks a byte rule, where none before `from` does: refusal 3.
pub fn check_bytes(recs: &[u8], from: usize, n: usize, list: u32) -> Result<(), Refusal>
    requires { (n * 24 ≤ length recs.now) × (n ≤ 1024) × (from ≤ n)
        × (lowest (ok_bytes recs.now) 0 from ≡ none) }
    ensures { result ≡ tested 3 list (lowest (ok_bytes recs.now) 0 n) }
{
    check_each(from, n, 3, list, |i| bytes_ok(recs, i))
}

// Whether a record's name lies in a pool of a length. The sum is of 64 bits, so it can't wrap.
pub fn name_ok(recs: &[u8], pool: usize, slot: usize) -> bool
    requires { slot * 24 + 24 ≤ length recs.now }
    ensures { result ≡ in_pool pool recs.now slot }
{
    let from = name_from(recs, slot);
    let len = name_len_at(recs, slot);
    from + len <= pool
}

// The lowest of n records whose name passes the end of its pool, where none before `from` does: refusal 4.
pub fn check_bounds(
    recs: &[u8],
    from: usize,
    n: usize,
    pool: usize,
    list: u32,
) -> Result<(), Refusal>
    requires { (n * 24 ≤ length recs.now) × (n ≤ 1024) × (from ≤ n)
        × (lowest (in_pool pool recs.now) 0 from ≡ none) }
    ensures { result ≡ tested 4 list (lowest (in_pool pool recs.now) 0 n) }
{
    check_each(from, n, 4, list, |i| name_ok(recs, pool, i))
}

// Whether a record keeps its byte rules and has its name in a pool of a length.
fn record_ok(recs: &[u8], pool: usize, slot: usize) -> bool
    requires { slot * 24 + 24 ≤ length recs.now }
    ensures { result ≡ kept pool recs.now slot }
{
    if !name_ok(recs, pool, slot) {
        return false;
    }
    bytes_ok(recs, slot)
}

// How many of n records, from the first on, keep 3 and 4, and whether a list or a map may be among all.
pub fn sift(recs: &[u8], n: usize, pool: usize) -> Sifted
    requires { (n * 24 ≤ length recs.now) × (n ≤ 1024) }
    ensures { Sifts pool recs.now n result }
{
    let mut nested = false;
    for i in 0..n {
        if !record_ok(recs, pool, i) {
            return Sifted {
                fine: i,
                nested: true,
            };
        }
        nested = nested | (2 <= recs[i * 24 + 9]);
    }
    Sifted { fine: n, nested }
}

// A record's name: the very part of the pool that holds it, at its offset, with no copy.
pub fn name_at<'a>(pool: &'a [u8], recs: &[u8], slot: usize) -> &'a [u8]
    requires { (slot * 24 + 24 ≤ length recs.now)
        × (in_pool (length pool.now) recs.now slot ≡ true) }
    ensures { (result.now ≡ name_of pool.now recs.now slot)
        × (result.ref_ptr.0 ≡ pool.entry.ref_ptr.0) × (result.ref_ptr.1 ≡ pool.entry.ref_ptr.1 + (rec_at
        recs.now slot).name_at) }
{
    let from = name_from(recs, slot);
    let len = name_len_at(recs, slot);
    &pool[from..from + len]
}

// Whether a name has a dot.
pub fn has_dot(name: &[u8]) -> bool
    ensures { result ≡ among 46 name.now }
{
    name.contains(&b'.')
}

// Whether two parts have the same bytes.
pub fn equal(a: &[u8], b: &[u8]) -> bool
    ensures { result ≡ same a.now b.now }
{
    let n = a.len();
    if n != b.len() {
        return false;
    }
    // names that differ mostly differ at their end
    if 0 < n {
        if a[n - 1] != b[n - 1] {
            return false;
        }
    }
    a == b
}
