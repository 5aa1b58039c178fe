// Files and streams, in memory and of the host: that each call succeeds where there is memory, and that slow
// streams are written and read whole. Expected bytes are written out by hand.

use crate::calls::{append, begin, flush, load, write, write_words};
use ij_io::{
    HostSink, LoadFault, MemShelf, MemSink, Shelf, ShelfFile, StoreFault, SureShelf, SureSink,
    Word, read_up_to,
};
use std::alloc::Global;
use std::io;
use std::io::{BufWriter, ErrorKind, Read, Write};
use std::process::Abort;

/// Writes bytes to `b` as a stream does, and `xyz` after them.
fn put_after<S: Shelf>(shelf: &mut S, bytes: &[u8]) -> [Result<(), StoreFault>; 2] {
    let mut file = ShelfFile { shelf, name: "b" };
    let words = [Word::Text(bytes), Word::Text(b""), Word::Text(b"xy")];
    [write_words(&mut file, &words), write(&mut file, b"z")]
}

/// Writes bytes after `ab` into `b`, piece by piece.
fn put_copy<S: Shelf>(shelf: &mut S, bytes: &[u8]) -> bool {
    let begun = begin(shelf, "b").is_ok();
    let added = append(shelf, "b", b"ab").is_ok();
    begun && added && put_after(shelf, bytes) == [Ok(()), Ok(())]
}

/// Copies the file `a` of three bytes after `ab` into `b`.
fn is_copied<S: Shelf>(alloc: Global, shelf: &mut S) -> bool {
    match load(alloc, shelf, "a", 3) {
        Ok(bytes) => put_copy(shelf, bytes.as_slice()),
        Err(_) => false,
    }
}

/// Whether a file has these bytes, and no more than the limit.
fn has<S: Shelf>(alloc: Global, shelf: &mut S, name: &str, limit: u32, bytes: &[u8]) -> bool {
    match load(alloc, shelf, name, limit) {
        Ok(found) => found.as_slice() == bytes,
        Err(_) => false,
    }
}

fn is_too_long<S: Shelf>(alloc: Global, shelf: &mut S, name: &str, limit: u32) -> bool {
    matches!(load(alloc, shelf, name, limit), Err(LoadFault::Long))
}

/// A copy is read back. One byte below the length of `b` is too little, and the file stays.
fn check_copy<S: Shelf>(rt: &impl Abort, alloc: Global, shelf: &mut S) {
    let wanted = b"ababcxyz".as_slice();
    let found = [
        is_copied(alloc, shelf),
        has(alloc, shelf, "b", 8, wanted),
        is_too_long(alloc, shelf, "b", 7),
        has(alloc, shelf, "b", 8, wanted),
    ];
    assert_eq!(rt; found, [true; 4]);
}

#[test]
fn a_file_is_copied_where_names_must_be_there(rt: HostRuntime) {
    let mut named = MemShelf::new(rt.alloc());
    named.put_file("a", b"abc").expect(&rt, "a file");
    check_copy(&rt, rt.alloc(), &mut named);
}

#[test]
fn a_file_is_copied_where_each_name_has_a_text(rt: HostRuntime) {
    let mut sure = SureShelf::new(rt.alloc());
    sure.put_file("a", b"abc").expect(&rt, "a file");
    check_copy(&rt, rt.alloc(), &mut sure);
}

/// Whether files in memory give this text out.
fn is_held(shelf: &SureShelf, name: &str, bytes: &[u8]) -> bool {
    shelf.file(name) == Some(bytes)
}

#[test]
fn a_name_without_a_text_has_the_empty_one(rt: HostRuntime) {
    let mut sure = SureShelf::new(rt.alloc());
    let found = [
        append(&mut sure, "c", b"new").is_ok(),
        has(rt.alloc(), &mut sure, "c", 3, b"new"),
        has(rt.alloc(), &mut sure, "none", 0, b""),
        is_held(&sure, "c", b"new"),
    ];
    assert_eq!(rt; found, [true; 4]);
}

/// What a call with a piece answers, where the second one fails.
const ANSWERS: [(&[u8], Result<(), StoreFault>); 3] = [
    (b"ab", Ok(())),
    (b"cd", Err(StoreFault::Failed)),
    (b"ef", Ok(())),
];

/// Whether the shelf holds this text.
fn is_kept(shelf: &MemShelf, name: &str, bytes: &[u8]) -> bool {
    shelf.file(name) == Some(bytes)
}

/// The second call fails alone, and leaves all as it was.
#[test]
fn the_named_call_of_a_file_fails(rt: HostRuntime) {
    let mut shelf = MemShelf::new(rt.alloc());
    shelf.fail_at(&[2]).expect(&rt, "a call that fails");
    for (piece, wanted) in &ANSWERS {
        assert!(rt;
            append(&mut shelf, "b", piece) == *wanted,
            "piece {}",
            piece.escape_ascii()
        );
    }
    assert!(rt; is_kept(&shelf, "b", b"abef"));
}

#[test]
fn the_named_write_of_a_stream_fails(rt: HostRuntime) {
    let mut sink = MemSink::new(rt.alloc());
    sink.fail_at(&[2]).expect(&rt, "a call that fails");
    for (piece, wanted) in &ANSWERS {
        let found = [write(&mut sink, piece), flush(&mut sink)];
        assert!(rt;
            found == [*wanted, Ok(())],
            "piece {}",
            piece.escape_ascii()
        );
    }
    assert!(rt; sink.bytes() == b"abef".as_slice());
}

#[test]
fn words_are_texts_and_decimal_numbers(rt: HostRuntime) {
    let mut sink = SureSink::new(rt.alloc());
    let words = [Word::Text(b"ab"), Word::Number(0), Word::Text(b"c")];
    assert!(rt; write_words(&mut sink, &words).is_ok());
    assert!(rt; sink.bytes() == b"ab0c".as_slice());
}

// What a stream does once it has no room.
#[derive(Clone, Copy)]
enum Full {
    TakesNothing,
    Fails,
    FailsToFlush,
}

// Takes two bytes at most in each write, and every other write is interrupted.
#[derive(Drop)]
struct Trickle {
    taken: Vec<u8>,
    room: usize,
    full: Full,
    interrupted: bool,
}

impl Write for Trickle {
    fn write(&mut self, buf: &[u8]) -> io::Result<usize> {
        self.interrupted = !self.interrupted;
        if self.interrupted {
            return Err(io::Error::new(ErrorKind::Interrupted, "a signal"));
        }
        let n = buf.len().min(2).min(self.room);
        if n == 0 && matches!(self.full, Full::Fails) {
            return Err(io::Error::new(ErrorKind::BrokenPipe, "no reader"));
        }
        self.taken.extend_from_slice(&buf[..n])?;
        self.room -= n;
        Ok(n)
    }

    fn flush(&mut self) -> io::Result<()> {
        if self.room == 0 && matches!(self.full, Full::FailsToFlush) {
            return Err(io::Error::new(ErrorKind::Other, "nothing was kept"));
        }
        Ok(())
    }
}

/// What a stream that is full after eight bytes answers: to a write of five bytes that it takes, to a flush,
/// to a last write, and to a flush.
fn answers(stream: &mut Trickle, last: &[u8]) -> [Result<(), StoreFault>; 4] {
    let mut sink = HostSink::new(stream);
    [
        write(&mut sink, b"abcde"),
        flush(&mut sink),
        write(&mut sink, last),
        flush(&mut sink),
    ]
}

/// A stream with room for eight bytes.
fn slow_stream(alloc: Global, full: Full) -> Trickle {
    Trickle {
        taken: Vec::new(alloc),
        room: 8,
        full,
        interrupted: false,
    }
}

/// How a stream is full, the last write, and what it and the flush after it answer.
const SLOW: [(Full, &[u8], [Result<(), StoreFault>; 2]); 3] = [
    (
        Full::TakesNothing,
        b"fghi",
        [Err(StoreFault::Failed), Ok(())],
    ),
    (Full::Fails, b"fghi", [Err(StoreFault::Failed), Ok(())]),
    (
        Full::FailsToFlush,
        b"fgh",
        [Ok(()), Err(StoreFault::Failed)],
    ),
];

/// Whether a stream answers so, and took each of its eight bytes once.
fn is_slow(alloc: Global, full: Full, last: &[u8], wanted: [Result<(), StoreFault>; 2]) -> bool {
    let mut stream = slow_stream(alloc, full);
    let found = answers(&mut stream, last);
    found == [Ok(()), Ok(()), wanted[0], wanted[1]]
        && stream.taken.as_slice() == b"abcdefgh".as_slice()
}

#[test]
fn a_slow_stream_gets_each_byte_once(rt: HostRuntime) {
    for (number, (full, last, wanted)) in SLOW.iter().enumerate() {
        assert!(rt;
            is_slow(rt.alloc(), *full, last, *wanted),
            "stream {number}"
        );
    }
}

// Gives two bytes at most in each read, and every other read is interrupted. It may fail at the end.
#[derive(Drop)]
struct Drip {
    rest: usize,
    fails: bool,
    interrupted: bool,
}

impl Read for Drip {
    fn read(&mut self, buf: &mut [u8]) -> io::Result<usize> {
        self.interrupted = !self.interrupted;
        if self.interrupted {
            return Err(io::Error::new(ErrorKind::Interrupted, "a signal"));
        }
        let n = buf.len().min(2).min(self.rest);
        if n == 0 && self.fails {
            return Err(io::Error::new(ErrorKind::Other, "no disk"));
        }
        buf[..n].fill(b'a');
        self.rest -= n;
        Ok(n)
    }
}

/// How many bytes are read of a file of five.
fn read(alloc: Global, limit: u32, fails: bool) -> Result<usize, LoadFault> {
    let mut file = Drip {
        rest: 5,
        fails,
        interrupted: false,
    };
    Ok(read_up_to(alloc, &mut file, limit)?.len())
}

#[test]
fn a_slow_file_is_read_up_to_its_limit(rt: HostRuntime) {
    for (limit, fails, wanted) in [
        (5, false, Ok(5)),
        (4, false, Err(LoadFault::Long)),
        (5, true, Err(LoadFault::Failed)),
    ] {
        let found = read(rt.alloc(), limit, fails);
        assert!(rt; found == wanted, "limit {limit}, fails {fails}: {found:?}");
    }
}

/// What a stream with a buffer answers to this text, which the buffer holds whole, and to a flush after it.
fn flushed(
    alloc: Global,
    stream: &mut Trickle,
    text: &[u8],
) -> Option<[Result<(), StoreFault>; 2]> {
    let buffer = BufWriter::with_capacity(alloc, 64, stream).ok()?;
    let mut sink = HostSink::new(buffer);
    Some([write(&mut sink, text), flush(&mut sink)])
}

/// Whether a flush after this text answers so, and a stream with room for eight bytes took these.
fn is_flushed(alloc: Global, text: &[u8], wanted: Result<(), StoreFault>) -> bool {
    let mut stream = slow_stream(alloc, Full::Fails);
    let found = flushed(alloc, &mut stream, text);
    found == Some([Ok(()), wanted]) && stream.taken.as_slice() == b"abcdefgh".as_slice()
}

/// What a stream that buffers keeps back is handed on by `flush` alone, and a stream that is full then fails
/// there.
#[test]
fn a_buffer_is_handed_on_by_flush(rt: HostRuntime) {
    assert!(rt; is_flushed(rt.alloc(), b"abcdefgh", Ok(())));
    assert!(rt; is_flushed(rt.alloc(), b"abcdefghi", Err(StoreFault::Failed)));
}
