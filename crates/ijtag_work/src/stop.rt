// Why a run stops short.
ghost use Rattle.std.specs.Prelude.{◌≡◌, OnOk, OnErr, codes};
ghost use Rattle.ij_io.specs.Bytes.{Adds, AddsPart};
ghost use Rattle.ij_io.specs.Causes.{HasCause};
ghost use Rattle.ijtag_work.specs.Runs.{IsOrMemory, Tells};
ghost use Rattle.ijtag_work.specs.Seen.{file_stop, output_stop, seen_made_name, seen_stop, stop_from};
ghost use Rattle.ijtag_work.specs.declared.stop.Stop.TheVariants as stops;
ghost use Rattle.ijtag_work.specs.Stops.{IsEarly, status_of, stop_text, named_line};

use crate::names::MadeName;
use crate::status::Status;
use ij_bits::OutOfMemory;
use ij_io::{Sink, StoreFault, Word, put_words};
use ijtag_stages::{Refusal, StageFault, put_refusal};
use std::alloc::AllocFailed;

/// Why a run stops short, with the file's name where it is a file's fault.
#[derive(Drop)]
pub enum Stop<'a> {
    /// The words are no command.
    Usage,
    /// A file or a text is refused.
    Refused(Refusal),
    /// A load of the file of this name failed.
    ReadFault(&'a str),
    /// A store under this name failed.
    WriteFault(&'a str),
    /// A store under this name of a made design's file failed.
    WriteMade(MadeName<'a>),
    /// A write of the output failed.
    OutputFault,
    /// There was no memory.
    OutOfMemory,
}

impl<'a> From<StageFault> for Stop<'a> {
    ghost from_gives = { λ fault stop. stop ≡ stop_from fault };

    fn from(fault: StageFault) -> Self {
        match fault {
            StageFault::Refused(refusal) => Stop::Refused(refusal),
            StageFault::OutOfMemory => Stop::OutOfMemory,
        }
    }
}

impl<'a> From<OutOfMemory> for Stop<'a> {
    ghost from_gives = { λ _ stop. stop ≡ stops.OutOfMemory };

    fn from(_: OutOfMemory) -> Self {
        Stop::OutOfMemory
    }
}

impl<'a> From<AllocFailed<Vec<u8>>> for Stop<'a> {
    ghost from_gives = { λ _ stop. stop ≡ stops.OutOfMemory };

    fn from(_: AllocFailed<Vec<u8>>) -> Self {
        Stop::OutOfMemory
    }
}

impl<'a> Stop<'a> {
    /// Why a run stops at a write of a file.
    pub fn of_file(fault: StoreFault, name: &'a str) -> Stop<'a>
        ensures stop { seen_stop result ≡ file_stop name.entry.now fault }
        ensures late { ¬ IsEarly (seen_stop result) }
    {
        match fault {
            StoreFault::Failed => Stop::WriteFault(name),
            StoreFault::OutOfMemory => Stop::OutOfMemory,
        }
    }

    /// Why a run stops at a write of a made design's file.
    pub fn of_made(fault: StoreFault, name: MadeName<'a>) -> Stop<'a>
        ensures { seen_stop result ≡ file_stop (seen_made_name name.entry) fault }
    {
        match fault {
            StoreFault::Failed => Stop::WriteMade(name),
            StoreFault::OutOfMemory => Stop::OutOfMemory,
        }
    }

    /// Why a run stops at a write of the output.
    pub fn of_output(fault: StoreFault) -> Stop<'a>
        ensures stop { seen_stop result ≡ output_stop fault }
        ensures late { ¬ IsEarly (seen_stop result) }
    {
        match fault {
            StoreFault::Failed => Stop::OutputFault,
            StoreFault::OutOfMemory => Stop::OutOfMemory,
        }
    }

    /// The status of a run that stops so.
    pub fn status(&self) -> Status
        ensures { result ≡ status_of (seen_stop self.now) }
    {
        match self {
            Stop::Usage => Status::Usage,
            Stop::Refused(_) => Status::Refused,
            Stop::ReadFault(_) => Status::ReadFault,
            Stop::WriteFault(_) => Status::WriteFault,
            Stop::WriteMade(_) => Status::WriteFault,
            Stop::OutputFault => Status::WriteFault,
            Stop::OutOfMemory => Status::OutOfMemory,
        }
    }
}

/// Prints a name after a text, on a line of its own.
#[tactic(auto, unfolding(ij_io::specs::Words::words_text))]
fn put_name_line<'a, K: Sink>(text: &'a [u8], name: &'a str, k: &mut K) -> Result<(), StoreFault>
    ensures whole { OnOk result (Adds (K.taken k.old) (K.taken k.new) (named_line text.now name.now)) }
    ensures part { OnErr result (AddsPart (K.taken k.old) (K.taken k.new) (named_line text.now name.now)) }
    ensures cause { HasCause (K.faults k.old) (K.faults k.new) result StoreFault.Failed }
{
    put_words(
        k,
        &[
            Word::Text(text),
            Word::Text(name.as_bytes()),
            Word::Text(b"\n"),
        ],
    )
}

/// Prints the line of a store that failed under the name of a made design's file.
#[tactic(auto, unfolding(ij_io::specs::Words::words_text))]
fn put_write_made<K: Sink>(name: &MadeName<'_>, k: &mut K) -> Result<(), StoreFault>
    ensures whole { OnOk result
        (Adds (K.taken k.old) (K.taken k.new) (named_line (codes "write fault ") (seen_made_name name.now))) }
    ensures part { OnErr result (AddsPart (K.taken k.old) (K.taken k.new)
        (named_line (codes "write fault ") (seen_made_name name.now))) }
    ensures cause { HasCause (K.faults k.old) (K.faults k.new) result StoreFault.Failed }
{
    put_words(
        k,
        &[
            Word::Text(b"write fault "),
            Word::Text(name.stem.as_bytes()),
            Word::Text(name.ending.as_bytes()),
            Word::Text(b"\n"),
        ],
    )
}

/// Prints the text of a stop, of a program with this usage text.
#[tactic(auto, unfolding(crate::specs::Stops::stop_text))]
fn put_stop<K: Sink>(usage: &[u8], stop: &Stop<'_>, k: &mut K) -> Result<(), StoreFault>
    ensures whole { OnOk result
        (Adds (K.taken k.old) (K.taken k.new) (stop_text usage.now (seen_stop stop.now))) }
    ensures part { OnErr result
        (AddsPart (K.taken k.old) (K.taken k.new) (stop_text usage.now (seen_stop stop.now))) }
    ensures cause { HasCause (K.faults k.old) (K.faults k.new) result StoreFault.Failed }
{
    match stop {
        Stop::Usage => k.write(usage),
        Stop::Refused(refusal) => put_refusal(refusal, k),
        Stop::ReadFault(name) => put_name_line(b"read fault ", name, k),
        Stop::WriteFault(name) => put_name_line(b"write fault ", name, k),
        Stop::WriteMade(name) => put_write_made(name, k),
        Stop::OutputFault => k.write(b"write fault output\n"),
        Stop::OutOfMemory => k.write(b"out of memory\n"),
    }
}

/// Prints the text of a stop on the error stream, of a program with this usage text, and gives its status. A
/// fault of the stream changes no status, and want of memory there is want of memory of the run.
pub fn report<E: Sink>(usage: &[u8], stop: &Stop<'_>, err: &mut E) -> Status
    ensures status { IsOrMemory result (status_of (seen_stop stop.now)) }
    ensures told { (result ≡ Status.OutOfMemory → ⊥)
        → Tells E.taken E.faults err.old err.new (stop_text usage.now (seen_stop stop.now)) }
    ensures part { AddsPart (E.taken err.old) (E.taken err.new) (stop_text usage.now (seen_stop stop.now)) }
{
    match put_stop(usage, stop, err) {
        Err(StoreFault::OutOfMemory) => Status::OutOfMemory,
        _ => stop.status(),
    }
}
