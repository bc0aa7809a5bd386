// The lister: from lent bytes to its text.
#![tactic(auto)]

ghost use Rattle.std.specs.Prelude.{◌≡◌, ◌+◌, ◌-◌, ◌<◌, ◌≤◌, length, take, drop};
ghost use Rattle.std.proofs.lemmas.List.Edits.{sets};
ghost use Rattle.paper.specs.Bytes.{turned};
ghost use Rattle.paper.specs.Lister.{decimal, signed, parent_text, lister};
ghost use Rattle.record.specs.Trees.{trees_in};
ghost use Rattle.plan.specs.Table.{numbers};
ghost use Rattle.index_names.specs.Table.{full_in};
ghost use Rattle.lister_lines.specs.Digits.{Ends, Put};
ghost use Rattle.lister_lines.specs.Text.{above, line_start, line_at, joined, refusal_text, Shown};

use index::index_base;
use index_ids::{LENS, UPS, cell};
use index_order::Names;
use plan::{PlanRows, name_of, put_bytes};
use record::{Refusal, Trees};
use tree::read_tree;

// Decimal digits, at the end of ten bytes.
#[derive(Clone, Copy)]
struct Digits {
    bytes: [u8; 10],
    start: usize,
}

// The digits of a number.
fn digits_of(number: u32) -> Digits
    ensures { Ends (decimal number) result }
{
    let mut bytes = [48u8; 10];
    let mut start: usize = 9;
    let mut left = number;
    while 10 <= left {
        bytes[start] = (48 + left % 10) as u8;
        if start == 0 {
            return Digits { bytes, start };
        }
        start -= 1;
        left /= 10;
    }
    bytes[start] = (48 + left) as u8;
    Digits { bytes, start }
}

// A number in decimal from `at` on, and the place behind it.
fn put_decimal(out: &mut [u8], at: usize, number: u32) -> usize
    requires { at + 10 ≤ length out.old }
    ensures { Put (decimal number) at out.old result out.new
        × (result ≤ at + 10) }
{
    let digits = digits_of(number);
    let bytes = digits.bytes;
    let start = digits.start;
    put_bytes(out, at, &bytes[start..10]);
    at + (10 - start)
}

// An id as the signed number that it is.
fn put_signed(out: &mut [u8], at: usize, id: u32) -> usize
    requires { at + 11 ≤ length out.old }
    ensures { Put (signed (turned id)) at out.old result out.new
        × (result ≤ at + 11) }
{
    if id < 2147483648 {
        return put_decimal(out, at, id);
    }
    out[at] = 45;
    put_decimal(out, at + 1, 4294967295 - id + 1)
}

// The full name of a slot from `at` on: its own name at the end, then the names above it, each before a dot.
fn put_full<'a>(names: &Names<'a>, slot: usize, out: &mut [u8], at: usize) -> usize
    requires { (slot < names.now.m) × (at + 65535 ≤ length out.old) }
    ensures { Put (full_in (trees_in names.now.trees.now) names.now.plan.now
        names.now.index.now slot) at out.old result out.new × (result ≤ at + 65535) }
{
    let stop = at + cell(names.index, LENS, slot);
    let mut end = stop;
    let mut here = slot;
    // no `for`: it goes up from record to record
    loop {
        let name = name_of(names.trees, names.plan, names.m, here);
        let from = end - name.len();
        put_bytes(out, from, name);
        let up = cell(names.index, UPS, here);
        if up == 0 {
            return stop;
        }
        end = from - 1;
        out[end] = 46;
        here = up - 1;
    }
}

// The id above, or a dash at a root.
fn put_parent(out: &mut [u8], at: usize, plan: &PlanRows, up: usize) -> usize
    requires { (up ≤ 1024) × (at + 11 ≤ length out.old) }
    ensures { Put (parent_text (above (numbers plan.now) up)) at
        out.old result out.new × (result ≤ at + 11) }
{
    if up == 0 {
        out[at] = 45;
        return at + 1;
    }
    put_signed(out, at, plan.numbers[up - 1])
}

// Slot, id and the id above, each before a blank.
fn put_numbers(out: &mut [u8], plan: &PlanRows, slot: usize, up: usize) -> usize
    requires { (slot < 1024) × ((up ≤ 1024) × (35 ≤ length out.old)) }
    ensures { Put (line_start (numbers plan.now) slot up) 0 out.old result
        out.new × (result ≤ 35) }
{
    let a = put_decimal(out, 0, slot as u32);
    out[a] = 32;
    let b = put_signed(out, a + 1, plan.numbers[slot]);
    out[b] = 32;
    let c = put_parent(out, b + 1, plan, up);
    out[c] = 32;
    c + 1
}

// The line of a slot at the start of the buffer, and its length.
fn put_line<'a>(names: &Names<'a>, slot: usize, out: &mut [u8]) -> usize
    requires { (slot < names.now.m) × (65571 ≤ length out.old) }
    ensures { Put (line_at (trees_in names.now.trees.now) names.now.plan.now
        names.now.index.now slot) 0 out.old result out.new × (result ≤ 65571) }
{
    let named = put_numbers(out, names.plan, slot, cell(names.index, UPS, slot));
    let end = put_full(names, slot, out, named);
    out[end] = b'\n';
    end + 1
}

// A text that stands at `at` in a longer one, into a buffer that shows the longer one from `from` on: what falls into the buffer.
fn put_shown(out: &mut [u8], from: usize, at: usize, text: &[u8])
    ensures { out.new ≡ sets out.old (at - from)
        (take (length out.old - (at - from)) (drop (from - at) text.now)) }
{
    let skip = from.saturating_sub(at);
    let to = at.saturating_sub(from);
    if text.len() <= skip {
        return;
    }
    if out.len() <= to {
        return;
    }
    let end = text.len() - (text.len() - skip).saturating_sub(out.len() - to);
    put_bytes(out, to, &text[skip..end]);
}

// The line of a refusal at the start of the buffer, and its length.
fn put_refusal(refusal: Refusal, out: &mut [u8]) -> usize
    requires { 44 ≤ length out.old }
    ensures { Put (refusal_text refusal) 0 out.old result out.new
        × (result ≤ 44) }
{
    put_bytes(out, 0, b"refused ");
    let a = put_decimal(out, 8, refusal.number);
    put_bytes(out, a, b" at ");
    let b = put_decimal(out, a + 4, refusal.list);
    out[b] = 32;
    let c = put_decimal(out, b + 1, refusal.place);
    out[c] = 10;
    c + 1
}

// The listing of a refusal.
fn list_refusal(refusal: Refusal, from: usize, out: &mut [u8]) -> usize
    ensures { Shown (refusal_text refusal) from out.old result out.new }
{
    let mut line = [0u8; 44];
    let n = put_refusal(refusal, &mut line);
    put_shown(out, from, 0, &line[..n]);
    n
}

// The listing of a tree, line after line.
fn list_rows<'a>(names: &Names<'a>, from: usize, line: &mut [u8], out: &mut [u8]) -> usize
    requires { 65571 ≤ length line.old }
    ensures { Shown (joined (line_at (trees_in names.now.trees.now) names.now.plan.now
        names.now.index.now) names.now.m) from out.old result out.new }
{
    let mut at = 0;
    for slot in 0..names.m {
        let n = put_line(names, slot, line);
        put_shown(out, from, at, &line[..n]);
        at += n;
    }
    at
}

// 2 to 8, then the listing, of any bytes: its bytes from `from` on, as many as the buffer holds. Answers the length of the whole
// listing. The buffer for a line has room for the longest name that a u16 can count, and for what stands around it.
pub fn listing<'a>(records: &'a [u8], pool: &'a [u8], from: usize, out: &mut [u8]) -> usize
    ensures { Shown (lister records.now pool.now) from
        out.old result out.new }
{
    let read = read_tree(records, pool);
    if let Err(refusal) = read {
        return list_refusal(refusal, from, out);
    }
    let trees = Trees::alone(records, pool);
    let n = records.len() / 24;
    let mut plan = PlanRows::empty();
    let mut index = [[0u16; 1024]; 8];
    let tested = index_base(&trees, n, b"", &mut plan, &mut index);
    if let Err(refusal) = tested {
        return list_refusal(refusal, from, out);
    }
    let mut line = [0u8; 65571];
    let names = Names {
        trees: &trees,
        plan: &plan,
        m: n,
        index: &index,
    };
    list_rows(&names, from, &mut line, out)
}
