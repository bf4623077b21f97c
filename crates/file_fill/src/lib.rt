// A reader, as standard input is, read into a lent list of bytes. What is read no contract can say; that the count is
// within the list is proved.
#![tactic(auto)]

ghost use Rattle.std.specs.Prelude.{◌≤◌, length, IfOk};
ghost use Rattle.std.specs.Io.{ReadsAtMost};

use std::io::{self, ErrorKind, Read};

// A signal interrupted the read that answered this.
fn is_interrupted(got: &io::Result<usize>) -> bool {
    match got {
        Ok(_) => false,
        Err(error) => error.kind() == ErrorKind::Interrupted,
    }
}

// One read. Where a signal interrupts it, it is tried again, but not for ever.
fn read_some<R: Read>(reader: &mut R, rest: &mut [u8]) -> io::Result<usize>
    ensures { ReadsAtMost result rest.new }
{
    for _ in 0..1000 {
        let got = reader.read(rest);
        if !is_interrupted(&got) {
            return got;
        }
    }
    reader.read(rest)
}

// Reads until the file ends or the list is full. Answers how many bytes were read, or why a read failed.
pub fn fill<R: Read>(reader: &mut R, bytes: &mut [u8]) -> io::Result<usize>
    ensures { IfOk result (λ n. n ≤ length bytes.new) }
{
    let mut done = 0;
    while done < bytes.len() {
        match read_some(reader, &mut bytes[done..])? {
            0 => return Ok(done),
            n => done += n,
        }
    }
    Ok(done)
}

// As `fill`, but where a read fails what was read before it stands.
pub fn fill_front<R: Read>(reader: &mut R, bytes: &mut [u8]) -> usize
    ensures { result ≤ length bytes.new }
{
    let mut done = 0;
    while done < bytes.len() {
        match read_some(reader, &mut bytes[done..]) {
            Err(_) => return done,
            Ok(0) => return done,
            Ok(n) => done += n,
        }
    }
    done
}
