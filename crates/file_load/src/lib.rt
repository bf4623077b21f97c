// A file by its name, read into a lent list of bytes. What is read no contract can say; that the count is within the
// list is proved. Zeros past the list's end are passed over.
#![tactic(auto)]

ghost use Rattle.std.specs.Prelude.{◌≤◌, length, IfOk};
ghost use Rattle.std.specs.Io.{ReadsAtMost};
ghost use Rattle.file_load.specs.Loading.{loaded_bytes};

pub mod args;

use failures::tell;
use std::fs;
use std::io::{self, ErrorKind, Read};
use std::rt::Files;

// What is answered: how many bytes were read; that there is no such file; the error of a call that failed, whose text
// was told on standard error; or that more than zeros follow what the list holds.
#[derive(Clone, Copy)]
pub enum Loaded {
    Bytes(usize),
    Missing,
    Unreadable(u32),
    TooLong,
}

// What a piece past the list is: zeros; the end; other bytes; or why a read failed.
#[derive(Drop)]
enum Rest {
    Zeros,
    End,
    Others,
    Failed(io::Error),
}

// No such file; a name that has a zero, for which std has no number of the system; and one that is not UTF-8, which std
// does not open.
const ENOENT: i32 = 2;

const EINVAL: i32 = 22;

const EILSEQ: i32 = 84;

// A signal interrupted the read that answered this.
fn is_interrupted(got: &io::Result<usize>) -> bool {
    match got {
        Ok(_) => false,
        Err(error) => error.kind() == ErrorKind::Interrupted,
    }
}

// One read. Where a signal interrupts it, it is tried again, but not for ever.
fn read_some<F: Read>(file: &mut F, rest: &mut [u8]) -> io::Result<usize>
    ensures { ReadsAtMost result rest.new }
{
    for _ in 0..1000 {
        let got = file.read(rest);
        if !is_interrupted(&got) {
            return got;
        }
    }
    file.read(rest)
}

// Reads until the file ends or the list is full. Answers how many bytes were read, or why a read failed.
fn fill<F: Read>(file: &mut F, bytes: &mut [u8]) -> io::Result<usize>
    ensures { IfOk result (λ n. n ≤ length bytes.new) }
{
    let mut done = 0;
    while done < bytes.len() {
        match read_some(file, &mut bytes[done..])? {
            0 => return Ok(done),
            n => done += n,
        }
    }
    Ok(done)
}

// Every byte is 0.
fn only_zeros(bytes: &[u8]) -> bool {
    bytes.iter().all(|b| *b == 0)
}

// The next piece.
fn pass_some<F: Read>(file: &mut F) -> Rest {
    let mut piece = [0u8; 4096];
    match read_some(file, &mut piece) {
        Err(error) => Rest::Failed(error),
        Ok(0) => Rest::End,
        Ok(n) => if only_zeros(&piece[..n]) {
            Rest::Zeros
        } else {
            Rest::Others
        },
    }
}

// Pieces while they are zeros, up to 65,536 of them, so that a device of zeros ends.
fn pass_zeros<F: Read>(file: &mut F) -> Rest {
    for _ in 0..65536 {
        match pass_some(file) {
            Rest::Zeros => {}
            other => return other,
        }
    }
    Rest::Others
}

// A line on standard error: a name, a colon and why it can't be read.
fn tell_of<R: Eprint>(rt: &R, path: &[u8], error: io::Error) {
    match str::from_utf8(path) {
        Ok(name) => tell(rt, name, error),
        Err(_) => tell(rt, path.escape_ascii(), error),
    }
}

// Why a call failed. A file that is missing is not told on standard error.
fn failure<R: Eprint>(rt: &R, path: &[u8], error: io::Error) -> Loaded
    ensures { loaded_bytes result ≤ 0 }
{
    let code = error.raw_os_error().unwrap_or(EINVAL);
    if code == ENOENT {
        return Loaded::Missing;
    }
    tell_of(rt, path, error);
    Loaded::Unreadable(code.cast_unsigned())
}

// What follows a list that is full.
fn past_end<R: Eprint, F: Read>(rt: &R, file: &mut F, path: &[u8], n: usize) -> Loaded
    ensures { loaded_bytes result ≤ n }
{
    match pass_zeros(file) {
        Rest::End => Loaded::Bytes(n),
        Rest::Failed(error) => failure(rt, path, error),
        _ => Loaded::TooLong,
    }
}

// An open file.
fn load_open<R: Eprint, F: Read>(rt: &R, file: &mut F, path: &[u8], bytes: &mut [u8]) -> Loaded
    ensures { loaded_bytes result ≤ length bytes.new }
{
    match fill(file, bytes) {
        Err(error) => failure(rt, path, error),
        Ok(n) => {
            if n < bytes.len() {
                return Loaded::Bytes(n);
            }
            past_end(rt, file, path, n)
        }
    }
}

// The file of a name.
fn open<R: Files>(rt: &R, path: &[u8]) -> io::Result<R::File> {
    match str::from_utf8(path) {
        Ok(name) => fs::open(rt, name),
        Err(_) => Err(io::Error::from_raw_os_error(EILSEQ)),
    }
}

// The bytes of a file at the front of a list.
pub fn load_file<R: Files + Eprint>(rt: &R, path: &[u8], bytes: &mut [u8]) -> Loaded
    ensures { loaded_bytes result ≤ length bytes.new }
{
    match open(rt, path) {
        Ok(mut file) => load_open(rt, &mut file, path, bytes),
        Err(error) => failure(rt, path, error),
    }
}
