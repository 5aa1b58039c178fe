// What a file or a text is refused for, and the line that tells it.
ghost use Rattle.std.specs.Prelude.{◌≡◌, ◌≢◌, ◌∷◌, [], ◌++◌, OnOk, OnErr, IfOk, Some, codes, map};
ghost use Rattle.std.specs.List.{flat_map};
ghost use Rattle.ij_io.specs.Bytes.{Adds, AddsPart};
ghost use Rattle.ij_io.specs.Causes.{HasCause};
ghost use Rattle.ijtag_stages.specs.Refusals.{refused, refused_at, refused_name, refused_number};
ghost use Rattle.ijtag_stages.specs.Refusals.{refused_word, stage_name, arg_text, head_text, refusal_text};
ghost use Rattle.ijtag_stages.specs.Refusals.{Said, Num};
ghost use Rattle.ijtag_stages.specs.Seen.{seen_arg, seen_refusal};
ghost use Rattle.ijtag_stages.specs.Follows.{IsToldAs};
ghost use Rattle.ijtag_stages.specs.declared.refusal.StageFault.TheVariants as stage_fault;

use ij_bits::{List, OutOfMemory};
use ij_io::{Sink, StoreFault, Word, put_words};
use ij_text::{Name, Place, Text, name_of};
use std::alloc::Global;

/// The part of the work that refuses.
#[derive(Clone, Copy, PartialEq, Eq, Debug)]
pub enum Stage {
    /// A file is loaded.
    File,
    /// The network's text is read (IEEE 1687-2014, ICL).
    Icl,
    /// The device's text is read (IEEE 1149.1-2013).
    Device,
    /// The instruments' tables are read.
    Tables,
    /// The text that is played is read (Serial Vector Format, revision E).
    Svf,
    /// The design is elaborated (IEEE 1687-2014, ICL).
    Elab,
    /// The hierarchy's signals are followed to a network (IEEE 1687-2014, ICL).
    Connect,
    /// The network's multiplexers stand inside one another (IEEE 1687-2014, ICL: ScanMux).
    Nest,
    /// The tables are compared with the network's instruments.
    Fit,
    /// The procedures' text is read, and the procedure followed to its end (IEEE 1687-2014, PDL level 0).
    Pdl,
    /// A design is made.
    Make,
    /// The test of the network's multiplexers is planned.
    Muxtest,
    /// An SVF text is written once more, with notes.
    Explain,
    /// One bit of a scan is looked up.
    Where,
    /// The network is drawn.
    Picture,
    /// The waves of a play are written.
    Wave,
}

impl Stage {
    /// The name that is printed.
    #[tactic(auto, unfolding(crate::specs::Refusals::stage_name))]
    fn name(self) -> &'static [u8]
        ensures { result.now ≡ stage_name self }
    {
        match self {
            Stage::File => b"file",
            Stage::Icl => b"icl",
            Stage::Device => b"device",
            Stage::Tables => b"tables",
            Stage::Svf => b"svf",
            Stage::Elab => b"elab",
            Stage::Connect => b"connect",
            Stage::Nest => b"nest",
            Stage::Fit => b"fit",
            Stage::Pdl => b"pdl",
            Stage::Make => b"make",
            Stage::Muxtest => b"muxtest",
            Stage::Explain => b"explain",
            Stage::Where => b"where",
            Stage::Picture => b"picture",
            Stage::Wave => b"wave",
        }
    }
}

/// What comes after the cause of a refusal.
#[derive(Drop)]
pub enum Arg {
    /// A place of the stage's text, as `L:C`.
    At(Place),
    /// A number, in decimal digits.
    Num(u64),
    /// A name or a word, as it is.
    Said(Text),
    /// A bit of a scan register, by the register's name and the bit's index, as `NAME[INDEX]`.
    Bit(Name, u64),
}

/// What a file or a text is refused for.
#[derive(Drop)]
pub struct Refusal {
    /// The stage that refuses.
    pub stage: Stage,
    /// The cause, as it is printed.
    pub kind: &'static [u8],
    /// What comes after it, in the order in which it is printed.
    pub args: List<Arg>,
}

/// Why a stage gives nothing.
#[derive(Drop)]
pub enum StageFault {
    /// It refuses.
    Refused(Refusal),
    /// There was no memory.
    OutOfMemory,
}

impl From<OutOfMemory> for StageFault {
    ghost from_gives = { λ _ e. e ≡ stage_fault.OutOfMemory };

    fn from(_e: OutOfMemory) -> StageFault {
        StageFault::OutOfMemory
    }
}

/// A list of one argument.
fn one(alloc: Global, arg: Arg) -> Result<List<Arg>, OutOfMemory>
    ensures { IfOk result (λ args. args.items ≡ arg ∷ []) }
{
    let mut args = List::new(alloc);
    args.push(arg)?;
    Ok(args)
}

/// A list of two arguments.
fn two(alloc: Global, first: Arg, second: Arg) -> Result<List<Arg>, OutOfMemory>
    ensures { IfOk result (λ args. args.items ≡ first ∷ second ∷ []) }
{
    let mut args = List::new(alloc);
    args.push(first)?;
    args.push(second)?;
    Ok(args)
}

/// A refusal with nothing after its cause. Takes no memory.
pub fn refused(alloc: Global, stage: Stage, kind: &'static [u8]) -> StageFault
    ensures told { IsToldAs (Some (refused stage kind.now)) result }
    ensures sure { result ≢ stage_fault.OutOfMemory }
{
    let args = List::new(alloc);
    StageFault::Refused(Refusal { stage, kind, args })
}

/// A refusal that tells one thing.
pub(crate) fn refused_one(alloc: Global, stage: Stage, kind: &'static [u8], arg: Arg) -> StageFault
    ensures { IsToldAs (Some (record { stage = stage; kind = kind.now; args = seen_arg arg ∷ [] })) result }
{
    match one(alloc, arg) {
        Ok(args) => StageFault::Refused(Refusal { stage, kind, args }),
        Err(_) => StageFault::OutOfMemory,
    }
}

/// A refusal that tells two things.
pub(crate) fn refused_two(
    alloc: Global,
    stage: Stage,
    kind: &'static [u8],
    first: Arg,
    second: Arg,
) -> StageFault
    ensures { IsToldAs (Some
        (record { stage = stage; kind = kind.now; args = seen_arg first ∷ seen_arg second ∷ [] })) result }
{
    match two(alloc, first, second) {
        Ok(args) => StageFault::Refused(Refusal { stage, kind, args }),
        Err(_) => StageFault::OutOfMemory,
    }
}

/// A list of three arguments.
fn three(alloc: Global, first: Arg, second: Arg, third: Arg) -> Result<List<Arg>, OutOfMemory>
    ensures { IfOk result (λ args. args.items ≡ first ∷ second ∷ third ∷ []) }
{
    let mut args = two(alloc, first, second)?;
    args.push(third)?;
    Ok(args)
}

/// A refusal that tells three things.
pub(crate) fn refused_three(
    alloc: Global,
    stage: Stage,
    kind: &'static [u8],
    first: Arg,
    second: Arg,
    third: Arg,
) -> StageFault
    ensures { IsToldAs (Some (record {
      stage = stage;
      kind = kind.now;
      args = seen_arg first ∷ seen_arg second ∷ seen_arg third ∷ [];
    })) result }
{
    match three(alloc, first, second, third) {
        Ok(args) => StageFault::Refused(Refusal { stage, kind, args }),
        Err(_) => StageFault::OutOfMemory,
    }
}

/// A refusal that tells a place.
pub(crate) fn refused_at(alloc: Global, stage: Stage, kind: &'static [u8], at: Place) -> StageFault
    ensures { IsToldAs (Some (refused_at stage kind.now at)) result }
{
    match one(alloc, Arg::At(at)) {
        Ok(args) => StageFault::Refused(Refusal { stage, kind, args }),
        Err(_) => StageFault::OutOfMemory,
    }
}

/// A refusal that tells a place and a word.
pub(crate) fn refused_word(
    alloc: Global,
    stage: Stage,
    kind: &'static [u8],
    at: Place,
    word: Text,
) -> StageFault
    ensures { IsToldAs (Some (refused_word stage kind.now at word.items)) result }
{
    match two(alloc, Arg::At(at), Arg::Said(word)) {
        Ok(args) => StageFault::Refused(Refusal { stage, kind, args }),
        Err(_) => StageFault::OutOfMemory,
    }
}

/// A list of a limit's name and its number.
fn limit_args(alloc: Global, which: &[u8], number: u64) -> Result<List<Arg>, OutOfMemory>
    ensures { IfOk result (λ args. map seen_arg args.items ≡ Said which.now ∷ Num number ∷ []) }
{
    let which = name_of(alloc, which)?;
    two(alloc, Arg::Said(which), Arg::Num(number))
}

/// A refusal that tells a limit and its number, or `OutOfMemory` where there is none for it.
pub fn refused_limit(alloc: Global, stage: Stage, which: &[u8], number: u64) -> StageFault
    ensures { IsToldAs (Some
        (record { stage = stage; kind = codes "Limit"; args = Said which.now ∷ Num number ∷ [] })) result }
{
    match limit_args(alloc, which, number) {
        Ok(args) => StageFault::Refused(Refusal {
            stage,
            kind: b"Limit",
            args,
        }),
        Err(_) => StageFault::OutOfMemory,
    }
}

/// A list of a name.
fn named(alloc: Global, name: &[u8]) -> Result<List<Arg>, OutOfMemory>
    ensures { IfOk result (λ args. map seen_arg args.items ≡ Said name.now ∷ []) }
{
    let name = name_of(alloc, name)?;
    one(alloc, Arg::Said(name))
}

/// A refusal that tells a name.
pub fn refused_name(alloc: Global, stage: Stage, kind: &'static [u8], name: &[u8]) -> StageFault
    ensures { IsToldAs (Some (refused_name stage kind.now name.now)) result }
{
    match named(alloc, name) {
        Ok(args) => StageFault::Refused(Refusal { stage, kind, args }),
        Err(_) => StageFault::OutOfMemory,
    }
}

/// A refusal that tells a number.
pub fn refused_number(alloc: Global, stage: Stage, kind: &'static [u8], number: u64) -> StageFault
    ensures { IsToldAs (Some (refused_number stage kind.now number)) result }
{
    refused_one(alloc, stage, kind, Arg::Num(number))
}

/// A refusal that tells two names.
pub(crate) fn refused_names(
    alloc: Global,
    stage: Stage,
    kind: &'static [u8],
    first: Name,
    second: Name,
) -> StageFault
    ensures { IsToldAs (Some (record
        { stage = stage; kind = kind.now; args = Said first.items ∷ Said second.items ∷ [] })) result }
{
    match two(alloc, Arg::Said(first), Arg::Said(second)) {
        Ok(args) => StageFault::Refused(Refusal { stage, kind, args }),
        Err(_) => StageFault::OutOfMemory,
    }
}

/// Prints what comes after a cause, and a blank before it.
#[tactic(auto, unfolding(ij_io::specs::Words::words_text, crate::specs::Refusals::arg_text))]
fn put_arg<K: Sink>(arg: &Arg, k: &mut K) -> Result<(), StoreFault>
    ensures whole { OnOk result (Adds (K.taken k.old) (K.taken k.new) (arg_text (seen_arg arg.now))) }
    ensures part { OnErr result (AddsPart (K.taken k.old) (K.taken k.new) (arg_text (seen_arg arg.now))) }
    ensures cause { HasCause (K.faults k.old) (K.faults k.new) result StoreFault.Failed }
{
    match arg {
        Arg::At(at) => put_words(
            k,
            &[
                Word::Text(b" "),
                Word::Number(at.line as u64),
                Word::Text(b":"),
                Word::Number(at.col as u64),
            ],
        ),
        Arg::Num(n) => put_words(k, &[Word::Text(b" "), Word::Number(*n)]),
        Arg::Said(text) => put_words(k, &[Word::Text(b" "), Word::Text(text.as_slice())]),
        Arg::Bit(register, index) => put_words(
            k,
            &[
                Word::Text(b" "),
                Word::Text(register.as_slice()),
                Word::Text(b"["),
                Word::Number(*index),
                Word::Text(b"]"),
            ],
        ),
    }
}

/// Prints what comes after a cause.
fn put_args<K: Sink>(args: &[Arg], k: &mut K) -> Result<(), StoreFault>
    ensures whole { OnOk result
        (Adds (K.taken k.old) (K.taken k.new) (flat_map (λ arg. arg_text (seen_arg arg)) args.now)) }
    ensures part { OnErr result
        (AddsPart (K.taken k.old) (K.taken k.new) (flat_map (λ arg. arg_text (seen_arg arg)) args.now)) }
    ensures cause { HasCause (K.faults k.old) (K.faults k.new) result StoreFault.Failed }
{
    for arg in args {
        put_arg(arg, k)?;
    }
    Ok(())
}

/// Prints what comes after a cause, and the line's end.
fn put_after<K: Sink>(args: &[Arg], k: &mut K) -> Result<(), StoreFault>
    ensures whole { OnOk result (Adds (K.taken k.old) (K.taken k.new)
        (flat_map (λ arg. arg_text (seen_arg arg)) args.now ++ codes "\n")) }
    ensures part { OnErr result (AddsPart (K.taken k.old) (K.taken k.new)
        (flat_map (λ arg. arg_text (seen_arg arg)) args.now ++ codes "\n")) }
    ensures cause { HasCause (K.faults k.old) (K.faults k.new) result StoreFault.Failed }
{
    put_args(args, k)?;
    k.write(b"\n")?;
    Ok(())
}

/// Prints the stage and the cause of a refusal.
#[tactic(auto, unfolding(ij_io::specs::Words::words_text, crate::specs::Refusals::head_text))]
fn put_head<K: Sink>(stage: Stage, kind: &[u8], k: &mut K) -> Result<(), StoreFault>
    ensures whole { OnOk result (Adds (K.taken k.old) (K.taken k.new) (head_text stage kind.now)) }
    ensures part { OnErr result (AddsPart (K.taken k.old) (K.taken k.new) (head_text stage kind.now)) }
    ensures cause { HasCause (K.faults k.old) (K.faults k.new) result StoreFault.Failed }
{
    put_words(
        k,
        &[
            Word::Text(b"refused "),
            Word::Text(stage.name()),
            Word::Text(b" "),
            Word::Text(kind),
        ],
    )
}

/// Prints the line of a refusal.
pub fn put_refusal<K: Sink>(refusal: &Refusal, k: &mut K) -> Result<(), StoreFault>
    ensures whole { OnOk result
        (Adds (K.taken k.old) (K.taken k.new) (refusal_text (seen_refusal refusal.now))) }
    ensures part { OnErr result
        (AddsPart (K.taken k.old) (K.taken k.new) (refusal_text (seen_refusal refusal.now))) }
    ensures cause { HasCause (K.faults k.old) (K.faults k.new) result StoreFault.Failed }
{
    put_head(refusal.stage, refusal.kind, k)?;
    put_after(refusal.args.as_slice(), k)?;
    Ok(())
}
