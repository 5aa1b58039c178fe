// The last lines of reports.
ghost use Rattle.std.specs.Prelude.{◌++◌, OnOk, OnErr};
ghost use Rattle.ij_io.specs.Bytes.{Adds, AddsPart};
ghost use Rattle.ij_io.specs.Causes.{HasCause};
ghost use Rattle.report.specs.Totalled.{totals_text, play_text, direct_text, size_text};

use ij_io::{Sink, StoreFault, Word, put_words};

/// What a command counted in all.
#[derive(Clone, Copy, Drop)]
pub enum Totals {
    /// Of an SVF file that was played: its scan commands, its clocks of TCK, and the compares that differ.
    Play {
        scans: u32,
        clocks: u64,
        differs: u64,
    },
    /// Of a procedure's direct meaning: the bits that were compared, and those that differ.
    Direct {
        reads: u64,
        differs: u64,
    },
    /// Of a made design: its size, the groups of its procedure, and what `Play` counts.
    Made {
        registers: u32,
        muxes: u32,
        instruments: u32,
        groups: u32,
        scans: u32,
        clocks: u64,
        differs: u64,
    },
}

/// Writes scans, clocks and differing compares.
#[tactic(auto, unfolding(ij_io::specs::Words::words_text))]
fn put_play<K: Sink>(scans: u32, clocks: u64, differs: u64, k: &mut K) -> Result<(), StoreFault>
    ensures whole { OnOk result (Adds (K.taken k.old) (K.taken k.new) (play_text scans clocks differs)) }
    ensures part { OnErr result (AddsPart (K.taken k.old) (K.taken k.new) (play_text scans clocks differs)) }
    ensures cause { HasCause (K.faults k.old) (K.faults k.new) result StoreFault.Failed }
{
    put_words(
        k,
        &[
            Word::Text(b"scans "),
            Word::Number(u64::from(scans)),
            Word::Text(b" clocks "),
            Word::Number(clocks),
            Word::Text(b" differs "),
            Word::Number(differs),
            Word::Text(b"\n"),
        ],
    )
}

/// Writes compared and differing bits.
#[tactic(auto, unfolding(ij_io::specs::Words::words_text))]
fn put_direct<K: Sink>(reads: u64, differs: u64, k: &mut K) -> Result<(), StoreFault>
    ensures whole { OnOk result (Adds (K.taken k.old) (K.taken k.new) (direct_text reads differs)) }
    ensures part { OnErr result (AddsPart (K.taken k.old) (K.taken k.new) (direct_text reads differs)) }
    ensures cause { HasCause (K.faults k.old) (K.faults k.new) result StoreFault.Failed }
{
    put_words(
        k,
        &[
            Word::Text(b"reads "),
            Word::Number(reads),
            Word::Text(b" differs "),
            Word::Number(differs),
            Word::Text(b"\n"),
        ],
    )
}

/// Writes the size of a made design.
#[tactic(auto, unfolding(ij_io::specs::Words::words_text))]
fn put_size<K: Sink>(
    registers: u32,
    muxes: u32,
    instruments: u32,
    groups: u32,
    k: &mut K,
) -> Result<(), StoreFault>
    ensures whole { OnOk result
        (Adds (K.taken k.old) (K.taken k.new) (size_text registers muxes instruments groups)) }
    ensures part { OnErr result
        (AddsPart (K.taken k.old) (K.taken k.new) (size_text registers muxes instruments groups)) }
    ensures cause { HasCause (K.faults k.old) (K.faults k.new) result StoreFault.Failed }
{
    put_words(
        k,
        &[
            Word::Text(b"made registers "),
            Word::Number(u64::from(registers)),
            Word::Text(b" muxes "),
            Word::Number(u64::from(muxes)),
            Word::Text(b" instruments "),
            Word::Number(u64::from(instruments)),
            Word::Text(b" groups "),
            Word::Number(u64::from(groups)),
            Word::Text(b" "),
        ],
    )
}

/// Writes the line of a made design.
fn put_made<K: Sink>(
    registers: u32,
    muxes: u32,
    instruments: u32,
    groups: u32,
    scans: u32,
    clocks: u64,
    differs: u64,
    k: &mut K,
) -> Result<(), StoreFault>
    ensures whole { OnOk result (Adds (K.taken k.old) (K.taken k.new)
        (size_text registers muxes instruments groups ++ play_text scans clocks differs)) }
    ensures part { OnErr result (AddsPart (K.taken k.old) (K.taken k.new)
        (size_text registers muxes instruments groups ++ play_text scans clocks differs)) }
    ensures cause { HasCause (K.faults k.old) (K.faults k.new) result StoreFault.Failed }
{
    put_size(registers, muxes, instruments, groups, k)?;
    put_play(scans, clocks, differs, k)?;
    Ok(())
}

/// Writes the last line of a report: `scans S clocks C differs D`, `reads N differs D`, or
/// `made registers R muxes M instruments I groups G scans S clocks C differs D`. It takes no memory itself.
///
/// # Errors
///
/// The sink's, which then took some first bytes of the line.
pub fn put_totals<K: Sink>(t: &Totals, k: &mut K) -> Result<(), StoreFault>
    ensures whole { OnOk result (Adds (K.taken k.old) (K.taken k.new) (totals_text t.now)) }
    ensures part { OnErr result (AddsPart (K.taken k.old) (K.taken k.new) (totals_text t.now)) }
    ensures cause { HasCause (K.faults k.old) (K.faults k.new) result StoreFault.Failed }
{
    match *t {
        Totals::Play {
            scans,
            clocks,
            differs,
        } => put_play(scans, clocks, differs, k),
        Totals::Direct { reads, differs } => put_direct(reads, differs, k),
        Totals::Made {
            registers,
            muxes,
            instruments,
            groups,
            scans,
            clocks,
            differs,
        } => {
            put_made(
                registers,
                muxes,
                instruments,
                groups,
                scans,
                clocks,
                differs,
                k,
            )
        }
    }
}
