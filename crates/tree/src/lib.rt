// Trees of records: refusals 5 and 6, and 3 to 6 together.
#![tactic(auto)]

ghost use Rattle.std.specs.Prelude.{◌≡◌, true, false, ◌+◌, ◌*◌, ◌≤◌, length};
ghost use Rattle.std.proofs.Math.Option.{none};
ghost use Rattle.paper.specs.declared.Role.TheVariants.{Member};
ghost use Rattle.paper.specs.Answer.{lowest};
ghost use Rattle.paper.specs.Field.{first};
ghost use Rattle.paper.specs.Sound.{fitting};
ghost use Rattle.paper.specs.Bytes.{in_pool, name_of, kind_at, kids_at};
ghost use Rattle.paper.specs.Layout.{row, roots};
ghost use Rattle.paper.specs.Decode.{decode};
ghost use Rattle.record.specs.Sifts.{flat};
ghost use Rattle.tree.specs.Read.{part, reads, Rowed, Standing};
ghost use Rattle.tree.specs.Says.{ended, rooted, decoded, Labelled};
ghost use Rattle.tree.specs.Fits.{Passed, Seated, Planted, Fits, AllFit};
ghost use Rattle.tree.specs.Only.{only_read};

use paper::{Role, first_role, next_role};
use record::{Refusal, check_bounds, check_bytes, equal, kids_at, kind_at, name_at, sift};
use record_limits::sized;

// Where `count` trees from `slot` on end, with `levels` levels left for them, or refusal 5. A loop over the siblings, which goes on
// inside the last of them.
pub fn row_end(
    recs: &[u8],
    n: usize,
    slot: usize,
    count: u32,
    levels: usize,
    list: u32,
) -> Result<usize, Refusal>
    requires { (n * 24 ≤ length recs.now) × (n ≤ 1024) × (slot ≤ n) }
    ensures { result ≡ ended (row list (kids_at recs.now) n levels count slot) }
{
    let mut at = slot;
    let mut left = count;
    let mut spare = levels;
    // no `for`: a row goes on inside its last tree
    while 0 < left {
        // refusal 5: level 17
        if spare == 0 {
            return Err(Refusal {
                number: 5,
                list,
                place: at as u32,
            });
        }
        // refusal 5: past the end
        if n <= at {
            return Err(Refusal {
                number: 5,
                list,
                place: at as u32,
            });
        }
        let kids = kids_at(recs, at);
        // a leaf has no inside to walk
        if kids == 0 {
            at += 1;
            left -= 1;
            continue;
        }
        // a row ends where the inside of its last tree ends
        if left == 1 {
            at += 1;
            left = kids;
            spare -= 1;
            continue;
        }
        at = row_end(recs, n, at + 1, kids, spare - 1, list)?;
        left -= 1;
    }
    Ok(at)
}

// Where `count` trees end that were read from `slot` on: the slot behind their last record.
pub fn row_past(recs: &[u8], n: usize, slot: usize, count: u32, levels: usize, list: u32) -> usize
    requires { Rowed list recs.now n levels count slot }
    ensures { result ≡ (part list (kids_at recs.now) n levels count slot).next }
{
    let walked = row_end(recs, n, slot, count, levels, list);
    let Ok(next) = walked else {
        return slot;
    };
    next
}

// Where the tree at a slot ends, whose inside was read with so many levels left.
pub fn tree_end(recs: &[u8], n: usize, slot: usize, levels: usize, list: u32) -> usize
    requires { Standing list recs.now n levels slot }
    ensures { result ≡ (part list (kids_at recs.now) n levels
        (kids_at recs.now slot) (slot + 1)).next }
{
    row_past(recs, n, slot + 1, kids_at(recs, slot), levels, list)
}

// The number of roots, or refusal 5.
pub fn check_shape(recs: &[u8], n: usize, list: u32) -> Result<u32, Refusal>
    requires { (n * 24 ≤ length recs.now) × (n ≤ 1024) }
    ensures { result ≡ rooted 0 (roots list (kids_at recs.now) n n 0) }
{
    let mut slot = 0;
    let mut count: u32 = 0;
    // no `for`: a step passes over a whole tree
    while slot < n {
        let kids = kids_at(recs, slot);
        // a leaf has no inside to walk
        if kids == 0 {
            slot += 1;
            count += 1;
            continue;
        }
        slot = row_end(recs, n, slot + 1, kids, 15, list)?;
        count += 1;
    }
    Ok(count)
}

// Whether a record of this role may have this name.
pub fn fits_role(name: &[u8], role: Role) -> bool
    ensures { result ≡ fitting role name.now }
{
    match role {
        Role::Member => true,
        Role::Element => equal(name, b"element"),
        Role::Key => equal(name, b"key"),
        Role::Value => equal(name, b"value"),
    }
}

// The role of a record's first member.
pub fn inside_role(recs: &[u8], slot: usize) -> Role
    requires { slot * 24 + 24 ≤ length recs.now }
    ensures { result ≡ first (kind_at recs.now slot) }
{
    first_role(kind_at(recs, slot))
}

// Whether a record has a name that its role allows.
fn label_ok(recs: &[u8], pool: &[u8], slot: usize, role: Role) -> bool
    requires { (slot * 24 + 24 ≤ length recs.now)
        × (in_pool (length pool.now) recs.now slot ≡ true) }
    ensures { result ≡ fitting role (name_of pool.now recs.now slot) }
{
    fits_role(name_at(pool, recs, slot), role)
}

// Where a row of trees ends, or refusal 6. A loop over the siblings; refusal 5 was tested, so each is there.
pub fn check_labels(
    recs: &[u8],
    pool: &[u8],
    n: usize,
    slot: usize,
    count: u32,
    levels: usize,
    role: Role,
    list: u32,
) -> Result<usize, Refusal>
    requires { (n * 24 ≤ length recs.now) × (n ≤ 1024) × (slot ≤ n)
        × (reads list (kids_at recs.now) n levels count slot ≡ true)
        × (lowest (in_pool (length pool.now) recs.now) 0 n ≡ none) }
    ensures { Labelled pool.now recs.now list n levels count slot role
        result }
{
    let mut at = slot;
    let mut left = count;
    let mut part = role;
    // no `for`: siblings are counted, and a step passes over a whole tree
    while 0 < left {
        if !label_ok(recs, pool, at, part) {
            return Err(Refusal {
                number: 6,
                list,
                place: at as u32,
            });
        }
        let kids = kids_at(recs, at);
        // a leaf has no inside to walk
        if kids == 0 {
            at += 1;
            part = next_role(part);
            left -= 1;
            continue;
        }
        let inside = inside_role(recs, at);
        at = check_labels(recs, pool, n, at + 1, kids, levels - 1, inside, list)?;
        part = next_role(part);
        left -= 1;
    }
    Ok(at)
}

// Whether the names directly inside a record are seen to fit. Behind a key with an inside its value is not looked for.
fn inside_fits(recs: &[u8], pool: &[u8], slot: usize) -> bool
    requires { Seated pool.now recs.now slot }
    ensures { Fits pool.now recs.now slot result }
{
    let kind = recs[slot * 24 + 9];
    if kind < 2 {
        return true;
    }
    if kind == 2 {
        return label_ok(recs, pool, slot + 1, Role::Element);
    }
    if 0 < kids_at(recs, slot + 1) {
        return false;
    }
    if !label_ok(recs, pool, slot + 1, Role::Key) {
        return false;
    }
    label_ok(recs, pool, slot + 2, Role::Value)
}

// Whether all names are seen to fit, by one loop over the records. Only a list or a map asks for names.
fn labels_fit(recs: &[u8], pool: &[u8], n: usize, nested: bool) -> bool
    requires { Passed pool.now recs.now n × (nested ≡ false → lowest (flat recs.now) 0 n ≡ none) }
    ensures { AllFit pool.now recs.now n result }
{
    if !nested {
        return true;
    }
    for slot in 0..n {
        if !inside_fits(recs, pool, slot) {
            return false;
        }
    }
    true
}

// Where the roots end, or refusal 6. Where the loop does not see all fit, the walk tells.
fn label_roots(
    recs: &[u8],
    pool: &[u8],
    n: usize,
    count: u32,
    nested: bool,
    list: u32,
) -> Result<usize, Refusal>
    requires { Planted list pool.now recs.now n count × (nested ≡ false → lowest (flat recs.now) 0 n ≡ none) }
    ensures { Labelled pool.now recs.now list n 16 count 0 Member result }
{
    if labels_fit(recs, pool, n, nested) {
        return Ok(n);
    }
    check_labels(recs, pool, n, 0, count, 16, Role::Member, list)
}

// Refusals 3 to 6, or the number of roots: what `decode` gives. Refusal 2 is tested before it, for everything at once, hence the length.
pub fn check_tree(recs: &[u8], pool: &[u8], list: u32) -> Result<u32, Refusal>
    requires { length recs.now ≤ 24576 }
    ensures { result ≡ decoded (decode list recs.now pool.now) }
{
    let n = recs.len() / 24;
    let sifted = sift(recs, n, pool.len());
    check_bytes(recs, sifted.fine, n, list)?;
    check_bounds(recs, sifted.fine, n, pool.len(), list)?;
    let count = check_shape(recs, n, list)?;
    label_roots(recs, pool, n, count, sifted.nested, list)?;
    Ok(count)
}

// Refusals 2 to 6, or the number of roots, of a tree that is only read.
pub fn read_tree(recs: &[u8], pool: &[u8]) -> Result<u32, Refusal>
    ensures { result ≡ decoded (only_read recs.now pool.now) }
{
    if !sized(recs, pool) {
        // refusal 2
        return Err(Refusal {
            number: 2,
            list: 0,
            place: 0,
        });
    }
    check_tree(recs, pool, 0)
}
