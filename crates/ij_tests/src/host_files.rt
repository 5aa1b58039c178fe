// Files of the host: what its shelf does with them, of which no clause can speak. A test is a table of steps.

use crate::calls::{append, begin, finish, load};
use ij_io::{HostShelf, LoadFault, Shelf, StoreFault};
use std::alloc::{Allocator, Global};
use std::fs::{Files, Metadata, OpenFile, OpenOptions};
use std::io::{ErrorKind, Read, Seek, SeekFrom, Write};
use std::process::Abort;
use std::rt::HostRuntime;
use std::{env, fs, io, process};

// ---- steps

/// A call of a shelf, on the file of a step.
#[derive(Clone, Copy)]
enum Call<'a> {
    Begin,
    Append(&'a [u8]),
    Finish,
}

/// What is done to the file of a step, or is to be found there.
#[derive(Clone, Copy)]
enum Act<'a> {
    /// The first shelf takes this call.
    First(Call<'a>),
    /// The second shelf takes this call.
    Second(Call<'a>),
    /// The first shelf refuses this call.
    Refused(Call<'a>),
    /// The first shelf can't load the file.
    NotLoaded,
    /// The host writes the file anew, with these bytes.
    Written(&'a [u8]),
    /// The host gives the file the name that ends so.
    RenamedTo(&'a str),
    /// The host removes the file.
    Removed,
    /// The file holds these bytes.
    Holds(&'a [u8]),
}

use Act::{First, Holds, NotLoaded, Refused, Removed, RenamedTo, Second, Written};
use Call::{Append, Begin, Finish};

/// The front of all names of a test: in the host's folder for files of a short life, and no other process has
/// it.
fn own_stem(rt: &HostRuntime) -> Option<String> {
    let folder = env::temp_dir(rt).ok()?;
    let path = folder.as_path().display();
    format!(in rt.alloc(); "{path}/ijtag-{}", process::id(rt.process())).ok()
}

/// The name of a file that ends so. One that begins with `/` stands for itself.
fn name_of(alloc: Global, stem: &str, ending: &str) -> Option<String> {
    let (front, point) = if ending.starts_with('/') {
        ("", "")
    } else {
        (stem, ".")
    };
    format!(in alloc; "{front}{point}{ending}").ok()
}

fn answer<S: Shelf>(shelf: &mut S, name: &str, call: Call<'_>) -> Result<(), StoreFault> {
    match call {
        Begin => begin(shelf, name),
        Append(piece) => append(shelf, name, piece),
        Finish => finish(shelf, name),
    }
}

fn is_not_loaded<S: Shelf>(alloc: Global, shelf: &mut S, name: &str) -> bool {
    matches!(load(alloc, shelf, name, 100), Err(LoadFault::Failed))
}

/// Whether a file holds these bytes.
fn holds(rt: &HostRuntime, name: &str, bytes: &[u8]) -> bool {
    match fs::read(rt, name) {
        Ok(found) => found.as_slice() == bytes,
        Err(_) => false,
    }
}

fn rename(rt: &HostRuntime, stem: &str, name: &str, ending: &str) -> bool {
    match name_of(rt.alloc(), stem, ending) {
        Some(new) => fs::rename(rt, name, new.as_str()).is_ok(),
        None => false,
    }
}

/// Does what a step says. Whether it came as the step says, too.
fn is_met<S: Shelf>(
    rt: &HostRuntime,
    first: &mut S,
    second: &mut S,
    stem: &str,
    name: &str,
    act: Act<'_>,
) -> bool {
    match act {
        First(call) => answer(first, name, call) == Ok(()),
        Second(call) => answer(second, name, call) == Ok(()),
        Refused(call) => answer(first, name, call) == Err(StoreFault::Failed),
        NotLoaded => is_not_loaded(rt.alloc(), first, name),
        Written(bytes) => fs::write(rt, name, bytes).is_ok(),
        RenamedTo(ending) => rename(rt, stem, name, ending),
        Removed => fs::remove_file(rt, name).is_ok(),
        Holds(bytes) => holds(rt, name, bytes),
    }
}

/// Does a step, on the file that is given by the ending of its name. Whether it came as the step says.
fn is_step_met<S: Shelf>(
    rt: &HostRuntime,
    first: &mut S,
    second: &mut S,
    stem: &str,
    step: &(&str, Act<'_>),
) -> bool {
    match name_of(rt.alloc(), stem, step.0) {
        Some(name) => is_met(rt, first, second, stem, name.as_str(), step.1),
        None => false,
    }
}

/// How many steps came as they say before the first that didn't. All are done, so that those that remove the
/// files are, too.
fn count_met<S: Shelf>(
    rt: &HostRuntime,
    first: &mut S,
    second: &mut S,
    stem: &str,
    steps: &[(&str, Act<'_>)],
) -> usize {
    let mut count = 0;
    for (number, step) in steps.iter().enumerate() {
        if is_step_met(rt, first, second, stem, step) && count == number {
            count = number.saturating_add(1);
        }
    }
    count
}

/// Does steps with two shelves: how many came as they say before the first that didn't.
fn steps_met(rt: &HostRuntime, steps: &[(&str, Act<'_>)]) -> usize {
    let Some(stem) = own_stem(rt) else {
        return 0;
    };
    let mut first = HostShelf::new(rt, rt.alloc());
    let mut second = HostShelf::new(rt, rt.alloc());
    count_met(rt, &mut first, &mut second, stem.as_str(), steps)
}

// ---- tests

/// A begun file is empty, whatever stood in it, and a piece is added after what is.
const GROWN: [(&str, Act<'static>); 14] = [
    ("grown", Written(b"a longer text that is there already")),
    ("grown", First(Begin)),
    ("grown", Holds(b"")),
    ("grown", First(Append(b"ab"))),
    ("grown", First(Append(b""))),
    ("grown", First(Append(b"c\n"))),
    ("grown", Holds(b"abc\n")),
    ("grown", First(Begin)),
    ("grown", First(Append(b"d"))),
    ("grown", Holds(b"d")),
    ("added", First(Append(b"new"))),
    ("added", Holds(b"new")),
    ("grown", Removed),
    ("added", Removed),
];

#[test]
fn a_begun_file_is_empty_and_grows_at_its_end(rt: HostRuntime) {
    assert_eq!(rt; steps_met(&rt, &GROWN), GROWN.len());
}

/// A name that isn't there, a folder, and a name below a file.
const NO_FILES: [(&str, Act<'static>); 10] = [
    ("kept", Written(b"a")),
    ("missing", NotLoaded),
    ("/", NotLoaded),
    ("kept/below", NotLoaded),
    ("/", Refused(Begin)),
    ("/", Refused(Append(b"b"))),
    ("kept/below", Refused(Begin)),
    ("kept/below", Refused(Append(b"b"))),
    ("kept", Holds(b"a")),
    ("kept", Removed),
];

#[test]
fn what_is_no_file_is_a_failed_call(rt: HostRuntime) {
    assert_eq!(rt; steps_met(&rt, &NO_FILES), NO_FILES.len());
}

/// A file that is renamed after it was begun gets the pieces, and no other comes in its place.
const BEGUN: [(&str, Act<'static>); 7] = [
    ("begun", First(Begin)),
    ("begun", First(Append(b"a"))),
    ("begun", RenamedTo("moved")),
    ("begun", First(Append(b"b"))),
    ("moved", Holds(b"ab")),
    ("begun", NotLoaded),
    ("moved", Removed),
];

#[test]
fn pieces_go_to_the_file_that_was_begun(rt: HostRuntime) {
    assert_eq!(rt; steps_met(&rt, &BEGUN), BEGUN.len());
}

/// Two shelves that write the same text to one name at once leave that text, once.
const SHARED: [(&str, Act<'static>); 8] = [
    ("shared", First(Begin)),
    ("shared", Second(Begin)),
    ("shared", First(Append(b"ab"))),
    ("shared", Second(Append(b"ab"))),
    ("shared", First(Finish)),
    ("shared", Second(Finish)),
    ("shared", Holds(b"ab")),
    ("shared", Removed),
];

#[test]
fn two_shelves_that_write_one_text_leave_it_once(rt: HostRuntime) {
    assert_eq!(rt; steps_met(&rt, &SHARED), SHARED.len());
}

/// Two shelves that write texts of different length to one name: each writes at its own places, and the later
/// byte is.
const OWN_PLACES: [(&str, Act<'static>); 9] = [
    ("texts", First(Begin)),
    ("texts", Second(Begin)),
    ("texts", First(Append(b"abc"))),
    ("texts", Second(Append(b"xy"))),
    ("texts", First(Append(b"d"))),
    ("texts", Second(Finish)),
    ("texts", First(Finish)),
    ("texts", Holds(b"xycd")),
    ("texts", Removed),
];

#[test]
fn two_shelves_write_at_their_own_places(rt: HostRuntime) {
    assert_eq!(rt; steps_met(&rt, &OWN_PLACES), OWN_PLACES.len());
}

/// A piece of another name goes to the file of that name: how many of the nine steps came so.
fn steps_met_with(rt: &HostRuntime, other: &str) -> usize {
    let steps = [
        ("one", First(Begin)),
        ("one", First(Append(b"a"))),
        (other, First(Append(b"x"))),
        (other, First(Finish)),
        ("one", First(Append(b"b"))),
        ("one", Holds(b"ab")),
        (other, Holds(b"x")),
        ("one", Removed),
        (other, Removed),
    ];
    steps_met(rt, &steps)
}

/// Also where the two names have one length or one is the other's front.
#[test]
fn a_piece_goes_to_the_file_of_its_name(rt: HostRuntime) {
    let found = [
        steps_met_with(&rt, "two"),
        steps_met_with(&rt, "on"),
        steps_met_with(&rt, "onet"),
    ];
    assert_eq!(rt; found, [9; 3]);
}

/// A file that is removed after it was begun gets the pieces, and none comes in its place. Once it is
/// finished, its name is free: a piece makes the file anew.
const FINISHED: [(&str, Act<'static>); 10] = [
    ("ended", First(Begin)),
    ("ended", First(Append(b"a"))),
    ("ended", Removed),
    ("other", First(Finish)),
    ("ended", First(Append(b"b"))),
    ("ended", NotLoaded),
    ("ended", First(Finish)),
    ("ended", First(Append(b"c"))),
    ("ended", Holds(b"c")),
    ("ended", Removed),
];

#[test]
fn a_finished_file_gets_no_piece(rt: HostRuntime) {
    assert_eq!(rt; steps_met(&rt, &FINISHED), FINISHED.len());
}

/// A file that was begun is let go of at the next `begin`, also where that is refused.
const NEXT_BEGIN: [(&str, Act<'static>); 7] = [
    ("first", First(Begin)),
    ("first", First(Append(b"a"))),
    ("first", Removed),
    ("/", Refused(Begin)),
    ("first", First(Append(b"b"))),
    ("first", Holds(b"b")),
    ("first", Removed),
];

#[test]
fn a_file_is_let_go_of_at_the_next_begin(rt: HostRuntime) {
    assert_eq!(rt; steps_met(&rt, &NEXT_BEGIN), NEXT_BEGIN.len());
}

// ---- a disk that loses what it took

// What a file answers once it is to keep what was written: a disk that can, one that is full by then, and a
// pipe.
#[derive(Clone, Copy)]
enum Keeping {
    Kept,
    Lost,
    Pipe,
}

// Files that take each byte and may lose all of them in the end.
#[derive(Drop)]
struct Disk {
    keeping: Keeping,
}

#[derive(Drop)]
struct DiskFile {
    keeping: Keeping,
}

fn unsupported<T>() -> io::Result<T> {
    Err(io::Error::from(ErrorKind::Unsupported))
}

impl Read for DiskFile {
    fn read(&mut self, _buf: &mut [u8]) -> io::Result<usize> {
        Ok(0)
    }
}

impl Write for DiskFile {
    fn write(&mut self, buf: &[u8]) -> io::Result<usize> {
        Ok(buf.len())
    }

    fn flush(&mut self) -> io::Result<()> {
        Ok(())
    }
}

impl Seek for DiskFile {
    fn seek(&mut self, _pos: SeekFrom) -> io::Result<u64> {
        unsupported()
    }
}

impl OpenFile for DiskFile {
    fn metadata(&self) -> io::Result<Metadata> {
        unsupported()
    }

    fn set_len(&self, _size: u64) -> io::Result<()> {
        unsupported()
    }

    fn sync_all(&self) -> io::Result<()> {
        match self.keeping {
            Keeping::Kept => Ok(()),
            Keeping::Lost => Err(io::Error::new(ErrorKind::StorageFull, "no room")),
            Keeping::Pipe => Err(io::Error::from(ErrorKind::InvalidInput)),
        }
    }

    fn sync_data(&self) -> io::Result<()> {
        unsupported()
    }
}

impl Files for Disk {
    type File = DiskFile;

    type Dir = DiskFile;

    fn open_file(&self, _how: &OpenOptions, _path: &str) -> io::Result<DiskFile> {
        Ok(DiskFile {
            keeping: self.keeping,
        })
    }

    fn open_dir(&self, _path: &str) -> io::Result<DiskFile> {
        unsupported()
    }

    fn metadata(&self, _path: &str) -> io::Result<Metadata> {
        unsupported()
    }

    fn symlink_metadata(&self, _path: &str) -> io::Result<Metadata> {
        unsupported()
    }

    fn copy(&self, _from: &str, _to: &str) -> io::Result<u64> {
        unsupported()
    }

    fn rename(&self, _from: &str, _to: &str) -> io::Result<()> {
        unsupported()
    }

    fn remove_file(&self, _path: &str) -> io::Result<()> {
        unsupported()
    }

    fn create_dir(&self, _path: &str) -> io::Result<()> {
        unsupported()
    }

    fn remove_dir(&self, _path: &str) -> io::Result<()> {
        unsupported()
    }

    fn remove_dir_all<B: Allocator>(&self, _alloc: B, _path: &str) -> io::Result<()> {
        unsupported()
    }
}

/// What is answered where a byte is written to `a`: to begin and to append; to finish another name, `a`, and
/// `a` once more.
fn answers(alloc: Global, keeping: Keeping) -> [Result<(), StoreFault>; 5] {
    let mut shelf = HostShelf::new(Disk { keeping }, alloc);
    [
        begin(&mut shelf, "a"),
        append(&mut shelf, "a", b"b"),
        finish(&mut shelf, "b"),
        finish(&mut shelf, "a"),
        finish(&mut shelf, "a"),
    ]
}

/// Its first `finish` answers so.
fn check_end(
    rt: &impl Abort,
    alloc: Global,
    case: &str,
    keeping: Keeping,
    wanted: Result<(), StoreFault>,
) {
    let found = answers(alloc, keeping);
    assert!(rt;
        found == [Ok(()), Ok(()), Ok(()), wanted, Ok(())],
        "{case}: {found:?}"
    );
}

/// A disk that refuses only once it is to keep what it took is a fault of the file, at its end. A pipe has
/// nothing to keep.
#[test]
fn a_late_fault_is_met_at_the_end(rt: HostRuntime) {
    check_end(&rt, rt.alloc(), "a disk that can", Keeping::Kept, Ok(()));
    check_end(
        &rt,
        rt.alloc(),
        "a full disk",
        Keeping::Lost,
        Err(StoreFault::Failed),
    );
    check_end(&rt, rt.alloc(), "a pipe", Keeping::Pipe, Ok(()));
}
