//! The real files and outputs, of which no clause says what they hold; a file in memory that is written; and jobs in threads.
ghost use Rattle.std.specs.Prelude.{◌≡◌, ◌≤◌, None, IfOk};
ghost use Rattle.audit_ports.specs.MemoryShown.{memory_shown};

use crate::real::read_stream;
use crate::{Failed, Job, MemoryShelf, OpenFault, RealShelf, RealSink, Shelf, Sink, ThreadCrew};
use stale_model::{Bytes, List};
use std::alloc::{AllocError, Global};
use std::io::{self, ErrorKind, Read, Write};
use std::test::Fail;
use std::{fs, process};

// Opens a file, and reads three times into the same two bytes.
fn read_thrice<S: Shelf>(shelf: &mut S, name: &[u8]) -> Result<([usize; 3], [u8; 2]), OpenFault>
    ensures { (S.shown shelf.new).writing ≡ (S.shown shelf.old).writing }
{
    shelf.open(name)?;
    let mut into = [0u8; 2];
    let Ok(first) = shelf.read(&mut into) else {
        return Err(OpenFault::Failed);
    };
    let Ok(second) = shelf.read(&mut into) else {
        return Err(OpenFault::Failed);
    };
    let Ok(third) = shelf.read(&mut into) else {
        return Err(OpenFault::Failed);
    };
    Ok(([first, second, third], into))
}

// Writes a file of one piece.
fn write_file<S: Shelf>(shelf: &mut S, name: &[u8], piece: &[u8]) -> Result<(), Failed>
    requires { (S.shown shelf.old).writing ≡ None }
    ensures { (S.shown shelf.new).writing ≡ None }
{
    shelf.create(name)?;
    shelf.write(piece)?;
    shelf.finish()
}

#[test]
fn a_real_file_is_read_to_its_end(rt: HostRuntime) -> Result<(), Fail> {
    let name = format!(in rt.alloc(); "audit-ports-{}", process::id(rt.process()))?;
    let inside = format!(in rt.alloc(); "{name}/inside")?;
    fs::write(&rt, name.as_str(), b"abc".as_slice())?;
    let mut shelf = RealShelf::over(rt);
    let whole = read_thrice(&mut shelf, name.as_bytes());
    let through_a_file = shelf.open(inside.as_bytes());
    fs::remove_file(&rt, name.as_str())?;

    assert_eq!(rt; whole, Ok(([2, 1, 0], *b"cb")));
    assert_eq!(rt; through_a_file, Err(OpenFault::Failed));
    assert_eq!(rt; shelf.open(name.as_bytes()), Err(OpenFault::Missing));
    assert_eq!(rt; shelf.open(b"\xff"), Err(OpenFault::Failed));
    // A folder can be opened, and not read.
    assert_eq!(rt; shelf.open(b"."), Ok(()));
    assert_eq!(rt; read_thrice(&mut shelf, b"."), Err(OpenFault::Failed));
    Ok(())
}

#[test]
fn a_name_with_a_blank_at_its_end_is_another(rt: HostRuntime) -> Result<(), Fail> {
    let name = format!(in rt.alloc(); "audit-ports-blank-{}", process::id(rt.process()))?;
    let blank = format!(in rt.alloc(); "{name} ")?;
    let mut shelf = RealShelf::over(rt);
    fs::write(&rt, name.as_str(), b"abc".as_slice())?;
    let absent = shelf.open(blank.as_bytes());
    fs::write(&rt, blank.as_str(), b"xy".as_slice())?;
    let there = read_thrice(&mut shelf, blank.as_bytes());
    fs::remove_file(&rt, name.as_str())?;
    fs::remove_file(&rt, blank.as_str())?;

    assert_eq!(rt; absent, Err(OpenFault::Missing));
    assert_eq!(rt; there, Ok(([2, 0, 0], *b"xy")));
    Ok(())
}

// A stream whose first read is interrupted.
#[derive(Drop)]
struct Interrupted;

impl Read for Interrupted {
    fn read(&mut self, _buf: &mut [u8]) -> io::Result<usize> {
        Err(io::Error::from(ErrorKind::Interrupted))
    }
}

#[test]
fn an_interrupted_read_is_not_the_end(rt: HostRuntime) {
    assert_eq!(rt; read_stream(&mut Interrupted, &mut [0u8; 2]), Err(Failed));
}

// A stream that takes one byte a call, and counts its flushes.
#[derive(Drop)]
struct Narrow<'a> {
    taken: &'a mut [u8; 4],
    count: &'a mut usize,
    flushes: &'a mut u32,
}

impl Write for Narrow<'_> {
    fn write(&mut self, buf: &[u8]) -> io::Result<usize> {
        let count = *self.count;
        match (buf.first(), self.taken.get_mut(count)) {
            (Some(byte), Some(place)) => {
                *place = *byte;
                *self.count = count + 1;
                Ok(1)
            }
            _ => Ok(0),
        }
    }

    fn flush(&mut self) -> io::Result<()> {
        *self.flushes = self.flushes.saturating_add(1);
        Ok(())
    }
}

#[test]
fn a_stream_that_takes_one_byte_a_call_gets_all(rt: HostRuntime) {
    let (mut taken, mut count, mut flushes) = ([0u8; 4], 0, 0);
    let mut sink = RealSink::over(Narrow {
        taken: &mut taken,
        count: &mut count,
        flushes: &mut flushes,
    });
    // The first call is a flush, and it reaches the stream as each other does.
    let first = sink.flush();
    let whole = sink.write(b"abc");
    let last = sink.flush();
    let full = sink.write(b"de");
    assert_eq!(rt;
        (first, whole, last, full),
        (Ok(()), Ok(()), Ok(()), Err(Failed))
    );
    drop(sink);
    assert_eq!(rt; (taken, count, flushes), (*b"abcd", 4, 2));
}

// A stream that takes nothing.
#[derive(Drop)]
struct Closed;

impl Write for Closed {
    fn write(&mut self, _buf: &[u8]) -> io::Result<usize> {
        Err(io::Error::from(ErrorKind::BrokenPipe))
    }

    fn flush(&mut self) -> io::Result<()> {
        Err(io::Error::from(ErrorKind::BrokenPipe))
    }
}

#[test]
fn a_real_output_takes_all_or_fails(rt: HostRuntime) -> Result<(), Fail> {
    let mut room = [0u8; 4];
    let mut full = RealSink::over(room.as_mut_slice());
    let first = full.write(b"abc");
    let second = full.write(b"de");
    assert_eq!(rt; (first, second), (Ok(()), Err(Failed)));
    assert_eq!(rt; room, *b"abcd");

    let mut closed = RealSink::over(Closed);
    assert_eq!(rt;
        (closed.write(b"a"), closed.flush()),
        (Err(Failed), Err(Failed))
    );

    let mut output = RealSink::output(rt);
    assert_eq!(rt;
        (output.write(b"standard output\n"), output.flush()),
        (Ok(()), Ok(()))
    );
    let mut error = RealSink::error(rt);
    assert_eq!(rt;
        (error.write(b"standard error\n"), error.flush()),
        (Ok(()), Ok(()))
    );
    Ok(())
}

#[test]
fn a_longer_real_file_is_replaced(rt: HostRuntime) -> Result<(), Fail> {
    let name = format!(in rt.alloc(); "audit-ports-old-{}", process::id(rt.process()))?;
    let mut shelf = RealShelf::over(rt);
    fs::write(&rt, name.as_str(), b"old and longer".as_slice())?;
    let written = write_file(&mut shelf, name.as_bytes(), b"new");
    let bytes = fs::read(&rt, name.as_str())?;
    fs::remove_file(&rt, name.as_str())?;

    assert_eq!(rt; written, Ok(()));
    assert_eq!(rt; bytes.as_slice(), b"new".as_slice());
    Ok(())
}

#[test]
fn a_real_file_in_no_folder_is_not_written(rt: HostRuntime) {
    let mut shelf = RealShelf::over(rt);
    assert_eq!(rt; shelf.create(b"no-such-folder/file"), Err(Failed));
}

#[test]
fn a_real_file_that_was_read_is_not_written(rt: HostRuntime) -> Result<(), Fail> {
    let name = format!(in rt.alloc(); "audit-ports-read-{}", process::id(rt.process()))?;
    let same = format!(in rt.alloc(); "./{name}")?;
    let mut shelf = RealShelf::over(rt);
    fs::write(&rt, name.as_str(), b"abc".as_slice())?;
    let read = read_thrice(&mut shelf, name.as_bytes());
    let written = write_file(&mut shelf, same.as_bytes(), b"new");
    let bytes = fs::read(&rt, name.as_str())?;
    fs::remove_file(&rt, name.as_str())?;

    assert_eq!(rt; read, Ok(([2, 1, 0], *b"cb")));
    assert_eq!(rt; written, Err(Failed));
    assert_eq!(rt; bytes.as_slice(), b"abc".as_slice());
    Ok(())
}

// A shelf in memory with one file, "h", whose calls of these numbers fail; a read gives at most `cut` bytes.
fn shelf_with_h(alloc: Global, fail: &[u32], cut: u32) -> Result<MemoryShelf, AllocError>
    requires { 1 ≤ cut }
    ensures { IfOk result (λ shelf. (memory_shown shelf).writing ≡ None) }
{
    let (Ok(name), Ok(bytes)) = (Bytes::of(alloc, b"h"), Bytes::of(alloc, b"abc")) else {
        return Err(AllocError);
    };
    let mut files = Vec::new(alloc);
    files.push((name, bytes))?;
    let fail = List::from_vec(Vec::from_slice(alloc, fail)?);
    match MemoryShelf::prepare_cut(alloc, List::from_vec(files), fail, cut) {
        Ok(shelf) => Ok(shelf),
        Err(_) => Err(AllocError),
    }
}

#[test]
fn a_read_in_memory_gives_no_more_than_the_cut(rt: HostRuntime) -> Result<(), Fail> {
    let mut shelf = shelf_with_h(rt.alloc(), &[], 1)?;
    assert_eq!(rt; read_thrice(&mut shelf, b"h"), Ok(([1, 1, 1], *b"c\0")));
    Ok(())
}

// Calls 1 to 3 write one file whole; call 4 creates the other, and call 5 is its write.
#[test]
fn a_refused_write_adds_nothing_in_memory(rt: HostRuntime) -> Result<(), Fail> {
    let mut shelf = shelf_with_h(rt.alloc(), &[5], 9)?;
    let first = write_file(&mut shelf, b"c", b"new");
    assert_eq!(rt; first, Ok(()));
    assert!(rt; shelf.file(b"c") == Some(b"new".as_slice()), "before");
    let second = write_file(&mut shelf, b"h", b"xy");
    assert_eq!(rt; second, Err(Failed));
    assert!(rt; shelf.file(b"h") == Some(b"".as_slice()), "after");
    assert!(rt; shelf.file(b"c") == Some(b"new".as_slice()), "other");
    assert!(rt; shelf.file(b"d").is_none(), "absent");
    Ok(())
}

// A number to be doubled.
#[derive(Drop)]
struct Doubling {
    number: u32,
}

// A number and its double.
#[derive(Drop)]
struct Doubled {
    number: u32,
    double: u64,
}

impl Job for Doubling {
    ghost use Rattle.std.specs.Prelude.{◌*◌, ⊤};

    type Out = Doubled;

    ghost number = { λ job. job.number };

    ghost can_run = { λ job. ⊤ };

    ghost ends = { λ job end. end.double ≡ 2 * job.number };

    fn mark(&self) -> u32 {
        self.number
    }

    fn run(self) -> Doubled {
        Doubled {
            number: self.number,
            double: 2 * u64::from(self.number),
        }
    }
}

#[test]
fn all_jobs_but_the_refused_one_run(rt: HostRuntime) -> Result<(), Fail> {
    let fail = List::from_vec(Vec::from_slice(rt.alloc(), &[2u32])?);
    let Ok(mut crew) = ThreadCrew::prepare(rt, rt.alloc(), 2, fail) else {
        panic!(rt; "no memory");
    };
    let first = crew.start(Doubling { number: 5 });
    let second = crew.start(Doubling { number: 6 });
    let third = crew.start(Doubling { number: 7 });
    let (Ok(()), Err(Failed), Ok(())) = (first, second, third) else {
        panic!(rt; "not the second alone");
    };
    let five = crew.join();
    assert_eq!(rt; (five.number, five.double), (5, 10));
    let seven = crew.join();
    assert_eq!(rt; (seven.number, seven.double), (7, 14));
    Ok(())
}
