// Calls of files and streams. They have no clauses: a test looks at what comes, and needs none of those that
// stand at each call.
use ij_io::{LoadFault, Shelf, Sink, StoreFault, Word, put_words};
use std::alloc::Global;

pub(crate) fn load<S: Shelf>(
    alloc: Global,
    shelf: &mut S,
    name: &str,
    limit: u32,
) -> Result<Vec<u8>, LoadFault> {
    shelf.load(alloc, name, limit)
}

pub(crate) fn begin<S: Shelf>(shelf: &mut S, name: &str) -> Result<(), StoreFault> {
    shelf.begin(name)
}

pub(crate) fn append<S: Shelf>(shelf: &mut S, name: &str, piece: &[u8]) -> Result<(), StoreFault> {
    shelf.append(name, piece)
}

pub(crate) fn finish<S: Shelf>(shelf: &mut S, name: &str) -> Result<(), StoreFault> {
    shelf.finish(name)
}

pub(crate) fn write<S: Sink>(sink: &mut S, piece: &[u8]) -> Result<(), StoreFault> {
    sink.write(piece)
}

pub(crate) fn flush<S: Sink>(sink: &mut S) -> Result<(), StoreFault> {
    sink.flush()
}

pub(crate) fn write_words<S: Sink>(sink: &mut S, words: &[Word<'_>]) -> Result<(), StoreFault> {
    put_words(sink, words)
}
