// Replays recorded.txt over the library: each line is a case, its inputs and the answer that was recorded. Every call is made anew, and
// every byte of its answer compared. The inputs are lent as `&`, so no call can change them, and no test of them is needed.
#![tactic(auto)]

mod cases;
mod lister;
mod look_ups;
mod pruning;
mod renumbering;
mod searching;
mod tally;
mod updating;

ghost use Rattle.std.specs.Prelude.{◌≤◌, length};

use cases::Buffers;
use index::{find_id, find_name, find_parent};
use index_folded::find_folded;
use std::fmt::InlineText;
use std::fs::File;
use std::io;
use std::io::Read;
use tally::{Fault, Line, Operation, Tally, Verdict, line_of};

fn main(rt: HostRuntime) -> io::Result<()> {
    let mut text = [0u8; 131072];
    let mut inputs = [0u8; 65536];
    let mut records = [0u8; 32768];
    let mut names = [0u8; 49152];
    let mut identifiers = [0u8; 1024];
    let mut buffers = Buffers {
        inputs: &mut inputs,
        records: &mut records,
        names: &mut names,
        identifiers: &mut identifiers,
    };
    let mut file = match File::open(&rt, "recorded.txt") {
        Ok(file) => file,
        Err(error) => return fail(&rt, "recorded.txt", error),
    };
    replay_file(&rt, &mut file, &mut text, &mut buffers).report(&rt)
}

// Writes a line to standard error: what failed, a colon and why.
fn fail(rt: &impl Eprint, what: &str, error: io::Error) -> io::Result<()> {
    let text = InlineText::<128>::of(error);
    let words = without_number(text.as_str());
    eprintln!(rt; "{what}: {words}")
}

// The system's words for an error, without the number that the library puts behind them.
fn without_number(text: &str) -> &str {
    match text.split_once(" (os error ") {
        Some((words, _)) => words,
        None => text,
    }
}

// Replays a file, a buffer at a time. What is left of a line goes to the start of the buffer, and the next read on behind it. A proved loop
// has to end, and nothing says that a file does, so the turns are counted, up to a number that no run comes to.
fn replay_file(
    rt: &impl Print,
    file: &mut impl Read,
    text: &mut [u8],
    buffers: &mut Buffers,
) -> Tally {
    let mut tally = Tally::new();
    let mut held = 0;
    for _ in 0..u64::MAX {
        let end = held + read_full(file, &mut text[held..]);
        let Some(feed) = text[..end].iter().rposition(|b| *b == b'\n') else {
            held = end;
            break;
        };
        replay_lines(rt, &text[..feed], &mut tally, buffers);
        text[..end].rotate_left(feed + 1);
        held = end - (feed + 1);
    }
    // a last line without its end, or one that the buffer can't hold
    if 0 < held {
        tally.begin(Line::Unknown);
        tally.judge(rt, Err(Fault::Unreadable));
    }
    tally
}

// Reads until the buffer is full, the file ends or a read fails; answers how many bytes it put at the start of the buffer.
fn read_full(file: &mut impl Read, buffer: &mut [u8]) -> usize
    ensures { result ≤ length buffer.new }
{
    let mut done = 0;
    // no `for`: a read puts as many bytes as it has
    while done < buffer.len() {
        match file.read(&mut buffer[done..]) {
            Ok(0) | Err(_) => break,
            Ok(n) => done += n,
        }
    }
    done
}

// Replays the lines of a text.
fn replay_lines(rt: &impl Print, text: &[u8], tally: &mut Tally, buffers: &mut Buffers) {
    for line in text.split(|b| *b == b'\n') {
        replay_line(rt, line, tally, buffers);
    }
}

// Replays a line.
fn replay_line(rt: &impl Print, text: &[u8], tally: &mut Tally, buffers: &mut Buffers) {
    let line = line_of(text);
    tally.begin(line);
    match line {
        Line::Case(operation) => tally.judge(rt, replay_case(operation, text, buffers)),
        Line::Comment => {}
        Line::Unknown => tally.judge(rt, Err(Fault::Unreadable)),
    }
}

// Replays a case.
fn replay_case(operation: Operation, text: &[u8], buffers: &mut Buffers) -> Verdict {
    match operation {
        Operation::Update => updating::replay(text, buffers),
        Operation::Prune => pruning::replay(text, buffers),
        Operation::Renumber => renumbering::replay(text, buffers),
        Operation::Name => look_ups::replay_name(text, buffers, |r, p, n| find_name(r, p, n)),
        Operation::Id => look_ups::replay_id(text, buffers, |r, p, i| find_id(r, p, i)),
        Operation::Parent => look_ups::replay_id(text, buffers, |r, p, i| find_parent(r, p, i)),
        Operation::List => lister::replay(text, buffers.inputs, buffers.names),
        Operation::Folded => look_ups::replay_name(text, buffers, |r, p, n| find_folded(r, p, n)),
        Operation::Ids => searching::replay(text, buffers),
    }
}
