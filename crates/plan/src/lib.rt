// Plans: planned records, and their names as parts of one of two pools.
#![tactic(auto)]

ghost use Rattle.std.specs.Prelude.{◌≡◌, ◌+◌, ◌*◌, ◌≤◌, ◌<◌, length};
ghost use Rattle.std.proofs.lemmas.List.Edits.{sets};
ghost use Rattle.paper.specs.Edits.{relaxed};
ghost use Rattle.record.specs.Trees.{trees_in};
ghost use Rattle.plan.specs.Plan.{Sits};
ghost use Rattle.plan.specs.Origin.{named, origin_of, edited_len, edited_flags, edited_code, EditedIn};
ghost use Rattle.plan.specs.Sources.{source_kind, source_len, source_flags, source_code};
ghost use Rattle.plan.specs.Sources.{NameAt, In, Summed};
ghost use Rattle.plan.specs.Named.{names_in, SourcesIn};
ghost use Rattle.plan.specs.Table.{sources, InsideIn, Roomy, no_rows, planned_at, CopiedIn, TakenIn};

use paper::{Kind, is_required};
use record::{Trees, code_at, flags_at, id_bits_at, kids_at, kind_at, name_at, name_len_at};
use record_entries::{new_code_at, new_name_at, new_name_len};

// Where a planned record comes from: a slot of the base, a slot of the additions tree, or a slot of the base as edits leave it.
#[derive(Clone, Copy)]
pub enum Origin {
    Base(usize),
    Added(usize),
    Edited(Edited),
}

// A slot of the base as edits leave it: whether it is relaxed, and the edits that rename and widen it.
#[derive(Clone, Copy)]
pub struct Edited {
    pub slot: usize,
    pub relaxed: bool,
    pub renaming: Option<usize>,
    pub widening: Option<usize>,
}

// A plan's rows: where each planned record comes from, as one number (`origin_of`), its id as 32 bits, how many members it has.
#[derive(Clone, Copy)]
pub struct PlanRows {
    pub sources: [u32; 1024],
    pub numbers: [u32; 1024],
    pub members: [u32; 1024],
}

impl PlanRows {
    // Rows of zeros.
    pub fn empty() -> PlanRows
        ensures zeros { result ≡ no_rows }
        ensures room { Roomy result }
    {
        PlanRows {
            sources: [0; 1024],
            numbers: [0; 1024],
            members: [0; 1024],
        }
    }
}

// A record planned at a place; the other places stay.
pub fn put_planned(plan: &mut PlanRows, at: usize, source: u32, id: u32, members: u32)
    requires { at < 1024 }
    ensures { plan.new ≡ planned_at plan.old at source id members }
{
    plan.sources[at] = source;
    plan.numbers[at] = id;
    plan.members[at] = members;
}

// So many records of a list from a slot on, planned as they stand from place `at` on; the rest of the rows stays.
pub fn copy_records(records: &[u8], slot: usize, count: usize, plan: &mut PlanRows, at: usize)
    requires { ((slot + count) * 24 ≤ length records.now) × (slot + count ≤ 1024)
        × (at + count ≤ 1024) }
    ensures { CopiedIn records.now slot count plan.old at
        plan.new }
{
    for i in 0..count {
        let k = slot + i;
        put_planned(
            plan,
            at + i,
            k as u32,
            id_bits_at(records, k),
            kids_at(records, k),
        );
    }
}

// The base as a plan of itself: each place holds its own slot, id and count; the rest of the rows stays.
pub fn take_base(records: &[u8], n: usize, plan: &mut PlanRows)
    requires { (n * 24 ≤ length records.now) × (n ≤ 1024) }
    ensures { TakenIn records.now n plan.old plan.new }
{
    copy_records(records, 0, n, plan, 0);
}

// The edit that a part of a mark names: 0 is none, k + 1 edit k.
fn named(part: usize) -> Option<usize>
    ensures { result ≡ named part }
{
    part.checked_sub(1)
}

// A source's number taken apart. Below 1,024 it is a slot of the base, from 1,024 to 2,047 one of the additions tree, from 2,048 on
// 2,048 + slot + 1,024 * mark. The mark is 1 if the column is relaxed, 2 * (k + 1) more if edit k renames it, and 256 * (k + 1) more
// if edit k widens it.
pub fn origin_of(source: u32) -> Origin
    ensures { result ≡ origin_of source }
{
    let k = source as usize;
    if k < 1024 {
        return Origin::Base(k);
    }
    if k < 2048 {
        return Origin::Added(k - 1024);
    }
    let mark = (k - 2048) / 1024;
    Origin::Edited(Edited {
        slot: (k - 2048) % 1024,
        relaxed: mark % 2 == 1,
        renaming: named(mark % 256 / 2),
        widening: named(mark / 256),
    })
}

// The flags of a column that is no longer required.
fn relaxed_flags(flags: u8) -> u8
    ensures { result ≡ relaxed flags }
{
    if is_required(flags) {
        return flags - 1;
    }
    flags
}

// The length of an edited record's name: the new one's, if it is renamed.
pub fn edited_name_len<'a>(trees: &Trees<'a>, edited: Edited) -> usize
    requires { EditedIn (trees_in trees.now).records (trees_in trees.now).edits edited }
    ensures { (result ≡ edited_len (trees_in trees.now).records
        (trees_in trees.now).edits edited) × (result ≤ 255) }
{
    match edited.renaming {
        None => name_len_at(trees.records, edited.slot),
        Some(k) => new_name_len(trees.edits, k),
    }
}

// Its flags: no longer required, if it is relaxed.
pub fn edited_flags<'a>(trees: &Trees<'a>, edited: Edited) -> u8
    requires { EditedIn (trees_in trees.now).records (trees_in trees.now).edits edited }
    ensures { result ≡ edited_flags (trees_in trees.now).records edited }
{
    let flags = flags_at(trees.records, edited.slot);
    if edited.relaxed {
        return relaxed_flags(flags);
    }
    flags
}

// Its type code: the new one, if it is widened.
pub fn edited_code<'a>(trees: &Trees<'a>, edited: Edited) -> u32
    requires { EditedIn (trees_in trees.now).records (trees_in trees.now).edits edited }
    ensures { result ≡ edited_code (trees_in trees.now).records
        (trees_in trees.now).edits edited }
{
    match edited.widening {
        None => code_at(trees.records, edited.slot),
        Some(k) => new_code_at(trees.edits, k),
    }
}

// A planned record's kind.
pub fn planned_kind<'a>(trees: &Trees<'a>, source: u32) -> Kind
    requires { In (trees_in trees.now).records (trees_in trees.now).added_records
        (trees_in trees.now).edits source }
    ensures { result ≡ source_kind (trees_in trees.now).records
        (trees_in trees.now).added_records source }
{
    match origin_of(source) {
        Origin::Base(slot) => kind_at(trees.records, slot),
        Origin::Added(slot) => kind_at(trees.added_records, slot),
        Origin::Edited(edited) => kind_at(trees.records, edited.slot),
    }
}

// Its flags.
pub fn planned_flags<'a>(trees: &Trees<'a>, source: u32) -> u8
    requires { In (trees_in trees.now).records (trees_in trees.now).added_records
        (trees_in trees.now).edits source }
    ensures { result ≡ source_flags (trees_in trees.now).records
        (trees_in trees.now).added_records source }
{
    match origin_of(source) {
        Origin::Base(slot) => flags_at(trees.records, slot),
        Origin::Added(slot) => flags_at(trees.added_records, slot),
        Origin::Edited(edited) => edited_flags(trees, edited),
    }
}

// Its type code.
pub fn planned_code<'a>(trees: &Trees<'a>, source: u32) -> u32
    requires { In (trees_in trees.now).records (trees_in trees.now).added_records
        (trees_in trees.now).edits source }
    ensures { result ≡ source_code (trees_in trees.now).records
        (trees_in trees.now).added_records (trees_in trees.now).edits
        source }
{
    match origin_of(source) {
        Origin::Base(slot) => code_at(trees.records, slot),
        Origin::Added(slot) => code_at(trees.added_records, slot),
        Origin::Edited(edited) => edited_code(trees, edited),
    }
}

// The length of its name.
pub fn planned_name_len<'a>(trees: &Trees<'a>, source: u32) -> usize
    requires { In (trees_in trees.now).records (trees_in trees.now).added_records
        (trees_in trees.now).edits source }
    ensures { (result ≡ source_len (trees_in trees.now).records
        (trees_in trees.now).added_records (trees_in trees.now).edits
        source) × (result ≤ 255) }
{
    // both are read before the choice, so that a loop need not read them each time
    let records = trees.records;
    let added = trees.added_records;
    match origin_of(source) {
        Origin::Base(slot) => name_len_at(records, slot),
        Origin::Added(slot) => name_len_at(added, slot),
        Origin::Edited(edited) => edited_name_len(trees, edited),
    }
}

// A planned record's name: a part of the base pool or of the request pool, whichever holds it.
pub fn planned_name<'a>(trees: &Trees<'a>, source: u32) -> &'a [u8]
    requires { Sits (trees_in trees.now) source }
    ensures { NameAt trees.now source result }
{
    match origin_of(source) {
        Origin::Base(slot) => name_at(trees.pool, trees.records, slot),
        Origin::Added(slot) => name_at(trees.request_pool, trees.added_records, slot),
        Origin::Edited(edited) => match edited.renaming {
            None => name_at(trees.pool, trees.records, edited.slot),
            Some(k) => new_name_at(trees.request_pool, trees.edits, k),
        },
    }
}

// The name of the planned record at a place: the very part of the pool that holds it.
pub fn name_of<'a>(trees: &Trees<'a>, plan: &PlanRows, m: usize, k: usize) -> &'a [u8]
    requires { (k < m) × SourcesIn (trees_in trees.now) plan.now m }
    ensures { result.now ≡ names_in (trees_in trees.now) plan.now k }
{
    planned_name(trees, plan.sources[k])
}

// Whether the names of the m planned records are within the limit, one of the three that refusal 19 reports.
pub fn names_fit<'a>(trees: &Trees<'a>, plan: &PlanRows, m: usize) -> bool
    requires { InsideIn (trees_in trees.now) plan.now m }
    ensures { Summed (trees_in trees.now).records
        (trees_in trees.now).added_records (trees_in trees.now).edits
        (sources plan.now) m result }
{
    let mut sum = 0;
    for i in 0..m {
        sum += planned_name_len(trees, plan.sources[i]);
    }
    sum <= 32768
}

// The bytes of `src` into `out` from `at` on; the rest of `out` stays.
#[tactic(auto, using(crate::proofs::Putting::putting))]
pub fn put_bytes(out: &mut [u8], at: usize, src: &[u8])
    requires { at + length src.now ≤ length out.old }
    ensures { out.new ≡ sets out.old at src.now }
{
    // no `copy_from_slice`: for that the archive would need the C library's memmove
    for i in 0..src.len() {
        out[at + i] = src[i];
    }
}
