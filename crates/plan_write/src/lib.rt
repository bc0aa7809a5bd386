// The one writer: a plan's records as bytes, and their names.
#![tactic(auto)]

ghost use Rattle.std.specs.Prelude.{◌≡◌, true, ◌+◌, ◌*◌, ◌≤◌, ◌<◌, length, get_or};
ghost use Rattle.std.proofs.lemmas.List.Edits.{sets};
ghost use Rattle.paper.specs.Encode.{kind_byte, row24, record_bytes, pool_bytes};
ghost use Rattle.record.specs.Trees.{trees_in};
ghost use Rattle.plan.specs.Plan.{Sits};
ghost use Rattle.plan.specs.Sources.{source_len};
ghost use Rattle.plan.specs.Table.{sources, PlanIn, fields_in};
ghost use Rattle.plan_write.specs.Written.{row_of, kept_row, source_row, planned_row, Over, Written};
ghost use Rattle.plan_write.specs.Run.{joined, Starts, Ran};

use paper::Kind;
use plan::{
    Origin, PlanRows, edited_code, edited_flags, edited_name_len, origin_of, planned_name,
    put_bytes,
};
use record::{Trees, attribute_at, code_at, flags_at, kind_at, name_from, name_len_at, word_bytes};

// The byte that stands for a kind.
fn kind_byte(k: Kind) -> u8
    ensures { result ≡ kind_byte k }
{
    k as u8
}

// The 24 bytes of a record.
fn row_bytes(
    id: u32,
    at: u32,
    len: u8,
    kind: u8,
    flags: u8,
    kids: u32,
    code: u32,
    attribute: u32,
) -> [u8; 24]
    ensures { result ≡ row24 id at len kind flags kids code attribute }
{
    let i = word_bytes(id);
    let a = word_bytes(at);
    let m = word_bytes(kids);
    let c = word_bytes(code);
    let d = word_bytes(attribute);
    [
        i[0], i[1], i[2], i[3], a[0], a[1], a[2], a[3], len, kind, flags, 0, m[0], m[1], 0, 0,
        c[0], c[1], c[2], c[3], d[0], d[1], d[2], d[3],
    ]
}

// A record of a list with another id, number of members, name offset, name length, flags and type code.
fn changed_bytes(
    recs: &[u8],
    slot: usize,
    id: u32,
    kids: u32,
    at: u32,
    len: usize,
    flags: u8,
    code: u32,
) -> [u8; 24]
    requires { (slot * 24 + 24 ≤ length recs.now) × (len ≤ 255) }
    ensures { result ≡ row_of recs.now slot id kids at len flags code }
{
    row_bytes(
        id,
        at,
        len as u8,
        kind_byte(kind_at(recs, slot)),
        flags,
        kids,
        code,
        attribute_at(recs, slot),
    )
}

// The same with its own name length, flags and type code.
fn kept_bytes(recs: &[u8], slot: usize, id: u32, kids: u32, at: u32) -> [u8; 24]
    requires { slot * 24 + 24 ≤ length recs.now }
    ensures { result ≡ kept_row recs.now slot id kids at }
{
    changed_bytes(
        recs,
        slot,
        id,
        kids,
        at,
        name_len_at(recs, slot),
        flags_at(recs, slot),
        code_at(recs, slot),
    )
}

// A planned record's 24 bytes, its name at offset `at` of the answer.
fn planned_bytes<'a>(trees: &Trees<'a>, source: u32, id: u32, kids: u32, at: u32) -> [u8; 24]
    requires { Sits (trees_in trees.now) source }
    ensures { result ≡ source_row (trees_in trees.now).records
        (trees_in trees.now).added_records (trees_in trees.now).edits
        source id kids at }
{
    match origin_of(source) {
        Origin::Base(slot) => kept_bytes(trees.records, slot, id, kids, at),
        Origin::Added(slot) => kept_bytes(trees.added_records, slot, id, kids, at),
        Origin::Edited(edited) => changed_bytes(
            trees.records,
            edited.slot,
            id,
            kids,
            at,
            edited_name_len(trees, edited),
            edited_flags(trees, edited),
            edited_code(trees, edited),
        ),
    }
}

// The planned record i into its place among the records; the rest of them stays. Answers how long its name is.
fn put_record<'a>(trees: &Trees<'a>, plan: &PlanRows, i: usize, at: u32, out: &mut [u8]) -> usize
    requires { Sits (trees_in trees.now) (get_or (sources plan.now) i 0) × (i < 1024)
        × (24576 ≤ length out.old) }
    ensures { (out.new ≡ sets out.old (i * 24)
        (planned_row (trees_in trees.now) plan.now i at)) × (result ≡ source_len
        (trees_in trees.now).records (trees_in trees.now).added_records
        (trees_in trees.now).edits (get_or (sources plan.now) i 0)) × (result ≤ 255) }
{
    let row = planned_bytes(trees, plan.sources[i], plan.numbers[i], plan.members[i], at);
    put_bytes(out, i * 24, &row);
    usize::from(row[8])
}

// A plan's records; bytes beyond stay.
fn put_records<'a>(trees: &Trees<'a>, plan: &PlanRows, m: usize, out: &mut [u8])
    requires { PlanIn (trees_in trees.now) plan.now m × (24576 ≤ length out.old) }
    ensures { Over (record_bytes (fields_in (trees_in trees.now)
        plan.now m)) out.old out.new }
{
    let mut at = 0;
    for i in 0..m {
        at += put_record(trees, plan, i, at as u32, out);
    }
}

// Where the planned record at a place comes from.
fn source_at(plan: &PlanRows, i: usize) -> u32
    requires { i < 1024 }
    ensures { result ≡ get_or (sources plan.now) i 0 }
{
    plan.sources[i]
}

// Names that stand one behind the other in the base's pool: where they end there, and the place behind the last of them.
#[derive(Clone, Copy)]
struct Run {
    end: usize,
    next: usize,
}

// Whether a source's name stands in the base's pool from `end` on. (That of an edited record may, and is written by itself.)
fn joins(records: &[u8], source: usize, end: usize) -> bool
    requires { source < 1024 → source * 24 + 24 ≤ length records.now }
    ensures { (result ≡ joined records.now source end) × (result ≡ true → end < 4294967296) }
{
    if 1024 <= source {
        return false;
    }
    name_from(records, source) == end
}

// The names that stand together from that of place i on, which starts at `from` in the base's pool.
fn run_from<'a>(trees: &Trees<'a>, plan: &PlanRows, m: usize, i: usize, from: usize) -> Run
    requires { Starts (trees_in trees.now) plan.now m i from }
    ensures { Ran (trees_in trees.now) plan.now m i from result.end
        result.next }
{
    let records = trees.records;
    let mut end = from;
    for next in i..m {
        let k = source_at(plan, next) as usize;
        if !joins(records, k, end) {
            return Run { end, next };
        }
        end += name_len_at(records, k);
    }
    Run { end, next: m }
}

// A plan's names, packed from offset 0; bytes beyond stay. Answers how many name bytes there are.
fn put_names<'a>(trees: &Trees<'a>, plan: &PlanRows, m: usize, out: &mut [u8]) -> usize
    requires { PlanIn (trees_in trees.now) plan.now m × (32768 ≤ length out.old) }
    ensures { Over (pool_bytes (fields_in (trees_in trees.now)
        plan.now m)) out.old out.new × (result ≡ length (pool_bytes
        (fields_in (trees_in trees.now) plan.now m))) }
{
    let records = trees.records;
    let pool = trees.pool;
    let mut i = 0;
    let mut to = 0;
    // no `for`: a step passes over a whole run
    while i < m {
        let source = source_at(plan, i);
        if 1024 <= source {
            let name = planned_name(trees, source);
            put_bytes(out, to, name);
            to += name.len();
            i += 1;
            continue;
        }
        let from = name_from(records, source as usize);
        let run = run_from(trees, plan, m, i, from);
        let end = run.end;
        let names = &pool[from..end];
        put_bytes(out, to, names);
        to += names.len();
        i = run.next;
    }
    to
}

// The one writer: a plan's records, and their names packed from offset 0; bytes beyond stay. Answers how many name bytes there are.
pub fn write_plan<'a>(
    trees: &Trees<'a>,
    plan: &PlanRows,
    m: usize,
    out_records: &mut [u8],
    out_names: &mut [u8],
) -> usize
    requires { PlanIn (trees_in trees.now) plan.now m × (24576 ≤ length out_records.old)
        × (32768 ≤ length out_names.old) }
    ensures { Written (fields_in (trees_in trees.now) plan.now m)
        out_records.old out_names.old result
        out_records.new out_names.new }
{
    put_records(trees, plan, m, out_records);
    put_names(trees, plan, m, out_names)
}
