// Lists the tree of tree.rec and tree.names in the current folder, or of the two files that are named: slot, id, the id above or a dash, and
// the full name of each record; or the line of a refusal.
#![tactic(auto)]

ghost use Rattle.std.specs.Prelude.{◌≤◌, ◌<◌, length, IfOk};

use lister_lines::listing;
use std::env::{Env, FillError};
use std::fmt::{Display, InlineText};
use std::fs::File;
use std::io;
use std::io::{Error, ErrorKind, Read};
use std::rt::Files;

fn main(rt: HostRuntime) -> io::Result<()> {
    if !has_argument(&rt, 1) {
        list_files(&rt, b"tree.rec", b"tree.names");
        return Ok(());
    }
    if has_argument(&rt, 2) & !has_argument(&rt, 3) {
        list_named(&rt);
        return Ok(());
    }
    eprintln!(rt; "usage: lister [RECORDS NAMES]")
}

// Whether the program was started with an argument of this number; 0 is its own name.
fn has_argument(rt: &impl Env, i: usize) -> bool {
    !matches!(rt.arg(i, &mut []), Err(FillError::NotPresent))
}

// Lists the files that the two arguments name.
fn list_named(rt: &(impl Env + Files + Print + Eprint)) {
    let mut records = [0u8; 4096];
    let mut names = [0u8; 4096];
    let r = match rt.arg(1, &mut records) {
        Ok(r) => r,
        Err(error) => return fail(rt, b"the first argument", reason(error)),
    };
    let n = match rt.arg(2, &mut names) {
        Ok(n) => n,
        Err(error) => return fail(rt, b"the second argument", reason(error)),
    };
    list_files(rt, &records[..r], &names[..n]);
}

// Why an argument was not taken, in the system's words.
fn reason(error: FillError) -> &'static str {
    match error {
        FillError::NotPresent => "Invalid argument",
        FillError::TooLong => "File name too long",
    }
}

// Lists two files, or says why one can't be read. Each buffer has one byte more than the limit, so that a longer file is refused and not
// cut short.
fn list_files(rt: &(impl Files + Print + Eprint), records_path: &[u8], names_path: &[u8]) {
    let mut records = [0u8; 24577];
    let mut names = [0u8; 32769];
    let mut text = [0u8; 65536];
    let r = match read_file(rt, records_path, &mut records) {
        Ok(r) => r,
        Err(error) => return fail(rt, records_path, error),
    };
    let n = match read_file(rt, names_path, &mut names) {
        Ok(n) => n,
        Err(error) => return fail(rt, names_path, error),
    };
    write_listing(rt, &records[..r], &names[..n], &mut text);
}

// Reads a file up to the end of the buffer; answers how many bytes it put there.
fn read_file(rt: &impl Files, path: &[u8], buffer: &mut [u8]) -> io::Result<usize>
    ensures { IfOk result (λ n. n ≤ length buffer.new) }
{
    let mut file = open_read(rt, path)?;
    read_on(&mut file, buffer)
}

// Opens a file for reading. The library opens only a path that is text.
fn open_read<R: Files>(rt: &R, path: &[u8]) -> io::Result<R::File> {
    match str::from_utf8(path) {
        Ok(path) => File::open(rt, path),
        Err(_) => Err(Error::new(ErrorKind::InvalidFilename, "the name is not UTF-8")),
    }
}

// Reads until the file ends, the buffer is full or a read fails.
fn read_on(file: &mut impl Read, buffer: &mut [u8]) -> io::Result<usize>
    ensures { IfOk result (λ n. n ≤ length buffer.new) }
{
    let mut at = 0;
    // no `for`: a read puts as many bytes as it has
    while at < buffer.len() {
        match file.read(&mut buffer[at..])? {
            0 => break,
            n => at += n,
        }
    }
    Ok(at)
}

// Writes a line to standard error: what failed, a colon and why. Where that can't be written there is nobody to tell.
fn fail(rt: &impl Eprint, what: &[u8], why: impl Display + Drop) {
    let text = InlineText::<128>::of(why);
    let words = without_number(text.as_str());
    let _ = match str::from_utf8(what) {
        Ok(what) => eprintln!(rt; "{what}: {words}"),
        Err(_) => eprintln!(rt; "{}: {words}", what.escape_ascii()),
    };
}

// The system's words for an error, without the number that the library puts behind them.
fn without_number(text: &str) -> &str {
    match text.split_once(" (os error ") {
        Some((words, _)) => words,
        None => text,
    }
}

// Writes the listing, a buffer at a time.
fn write_listing<'a>(
    rt: &(impl Print + Eprint),
    records: &'a [u8],
    names: &'a [u8],
    text: &mut [u8],
)
    requires { 0 < length text.old }
{
    let mut at = 0;
    // no `for`: how long the listing is, its first part tells
    loop {
        let whole = listing(records, names, at, text);
        let n = text.len().min(whole - at);
        if let Err(error) = rt.write_all(&text[..n]) {
            return fail(rt, b"standard output", error);
        }
        at += n;
        if n < text.len() {
            return;
        }
    }
}
