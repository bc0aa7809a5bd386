// An index of ids: each stands on a path by its bits. Refusal 7, and the search for an id. And slots in chains, for full names.
#![tactic(auto)]

ghost use Rattle.std.specs.Prelude.{◌≡◌, eqb, ◌≤◌, ◌<◌, length, get_or};
ghost use Rattle.paper.specs.Bytes.{turned};
ghost use Rattle.record.specs.Says.{slot_before};
ghost use Rattle.plan.specs.Table.{numbers};
ghost use Rattle.index_ids.specs.Chain.{lowest_below, Cleared};
ghost use Rattle.index_ids.specs.Ids.{bucket_of, is_id};
ghost use Rattle.index_ids.specs.Table.{row, id_heads, Rooms, Fresh, EnteredIn};
ghost use Rattle.index_ids.specs.Path.{IdsChained, Followed, entered_at, IndexedIn};

use plan::PlanRows;
use record::{Refusal, Slot};

// An index's rows. A place is one more than a slot, or 0 for none: the heads of the paths of ids and, in a row for each bit, their
// links; of each slot the place above it, and the length and the tag of its full name; the heads of the chains of full names and their
// links, or, where full names are sorted, what is remembered of comparisons and the slots in their order.
// No struct: rows are chosen by number, as a path goes on in ID_NEXT + bit, and `enter` serves both kinds of chains.
pub type IndexRows = [[u16; 1024]; 8];

pub const ID_HEADS: usize = 0;

pub const ID_NEXT: usize = 1;

pub const UPS: usize = 3;

pub const LENS: usize = 4;

pub const TAGS: usize = 5;

pub const NAME_HEADS: usize = 6;

pub const NAME_NEXT: usize = 7;

// Where the way to an id leads: to the slot that has it, or to the row and the cell in which its path ends. No Option or Result: an
// index asks for the end, a search for the slot.
#[derive(Clone, Copy)]
pub enum Way {
    Met(Slot),
    Ended(usize, usize),
}

// The bucket of an id: its ten lowest bits, so that ids in a row fall apart.
pub fn bucket_of(key: u32) -> usize
    ensures { (result ≡ bucket_of (turned key)) × (result < 1024) }
{
    (key % 1024) as usize
}

// A number of 16 bits as a place, a length or a tag.
pub fn place(x: u16) -> usize
    ensures { (result ≡ x) × (result < 65536) }
{
    x as usize
}

// What a row keeps at k.
pub fn cell(index: &IndexRows, line: usize, k: usize) -> usize
    requires { (line < 8) × (k < 1024) }
    ensures { (result ≡ get_or (row index.now line) k 0) × (result < 65536) }
{
    place(index[line][k])
}

// All chains are made empty.
pub fn clear(heads: &mut [u16; 1024])
    requires { length heads.old ≡ 1024 }
    ensures { Cleared heads.new }
{
    heads.fill(0);
}

// An index that was used is made fresh. A table of zeros is fresh as it is, so no entry calls this for a table that it has just made.
pub fn refresh(index: &mut IndexRows)
    requires { Rooms index.old }
    ensures { Fresh index.new }
{
    clear(&mut index[ID_HEADS]);
    clear(&mut index[NAME_HEADS]);
}

// The slot k is put before the chain of the bucket b. The row `heads` has the chains' heads, the next row their links.
pub fn enter(index: &mut IndexRows, heads: usize, b: usize, k: usize)
    requires { (heads < 7) × (b < 1024) × (k < 1024) × Rooms index.old }
    ensures { EnteredIn heads b k index.old index.new }
{
    index[heads + 1][k] = index[heads][b];
    index[heads][b] = (k + 1) as u16;
}

// Equal bits are equal ids.
pub fn same_id(a: u32, b: u32) -> bool
    ensures { result ≡ eqb (turned a) (turned b) }
{
    a == b
}

// Goes from the head of an id's path by its bits. Ten of 32 chose the head and each step asks one more, so `left` is never below 0.
fn follow(plan: &PlanRows, index: &IndexRows, k: usize, id: u32) -> Way
    requires { (k ≤ 1024) × IdsChained (numbers plan.now) index.now k }
    ensures { Followed (numbers plan.now) index.now k (turned id) result }
{
    let mut line = ID_HEADS;
    let mut c = bucket_of(id);
    let mut bits = id / 1024;
    let mut left = 22u32;
    let mut at = cell(index, line, c);
    // no `for`: a path is followed
    while 0 < at {
        c = at - 1;
        if same_id(id, plan.numbers[c]) {
            return Way::Met(Slot(c));
        }
        line = ID_NEXT + (bits % 2) as usize;
        bits /= 2;
        left -= 1;
        at = cell(index, line, c);
    }
    Way::Ended(line, c)
}

// The lowest slot below k that has the id.
pub fn find_id(plan: &PlanRows, index: &IndexRows, k: usize, id: u32) -> Option<Slot>
    requires { (k ≤ 1024) × IdsChained (numbers plan.now) index.now k }
    ensures { result ≡ slot_before (lowest_below
        (is_id (numbers plan.now) (turned id)) 0 k) }
{
    match follow(plan, index, k, id) {
        Way::Met(slot) => Some(slot),
        Way::Ended(_, _) => None,
    }
}

// The slot k is put where its id's path ended, and has no links yet.
fn enter_id(index: &mut IndexRows, line: usize, c: usize, k: usize)
    requires { (line < 3) × (c < 1024) × (k < 1024) }
    ensures { index.new ≡ entered_at index.old line c k }
{
    index[ID_NEXT][k] = 0;
    index[ID_NEXT + 1][k] = 0;
    index[line][c] = (k + 1) as u16;
}

// Refusal 7 over m slots, where no id stands on a path yet. Where there is none, the index of the ids is left; its other rows stay.
pub fn check_ids(plan: &PlanRows, m: usize, list: u32, index: &mut IndexRows) -> Result<(), Refusal>
    requires { (m ≤ 1024) × (Rooms index.old × Cleared (id_heads index.old)) }
    ensures { IndexedIn (numbers plan.now) m list result index.old
        index.new }
{
    for k in 0..m {
        match follow(plan, index, k, plan.numbers[k]) {
            Way::Met(_) => {
                return Err(Refusal {
                    number: 7,
                    list,
                    place: k as u32,
                });
            }
            Way::Ended(line, c) => enter_id(index, line, c, k),
        }
    }
    Ok(())
}
