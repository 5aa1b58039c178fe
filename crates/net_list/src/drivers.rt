// What drives the inputs of instruments.
ghost use Rattle.std.specs.Prelude.{◌≡◌, ◌<◌, ◌==◌, ◌++◌, [], suc, codes, cond, get_or, length, All, OnOk};
ghost use Rattle.std.specs.Prelude.{OnErr};
ghost use Rattle.ij_io.specs.Bytes.{Adds, AddsPart};
ghost use Rattle.ij_io.specs.Causes.{HasCause};
ghost use Rattle.net_graph.specs.Named.{IsInputOf};
ghost use Rattle.net_graph.specs.Nets.{IsNet};
ghost use Rattle.net_graph.specs.declared.net.Sig.TheVariants as sig;
ghost use Rattle.net_list.specs.Drivers as drivers;

use crate::names::{index_of, put_open_name};
use ij_io::{Sink, StoreFault, Word, put_words};
use net_graph::{BitId, Net, Sig};

/// Whether a signal is in a register at the left of another.
fn is_left_of(left: Sig, right: Sig) -> bool
    ensures { result ≡ drivers.is_left_of left right }
{
    match (left, right) {
        (
            Sig::Bit {
                bit: a,
                inverted: v,
            },
            Sig::Bit {
                bit: b,
                inverted: w,
            },
        ) => v == w && a.reg == b.reg && u64::from(a.pos) == u64::from(b.pos) + 1,
        _ => false,
    }
}

/// Whether a position goes on with the run of the one at its left.
fn continues_run(bits: &[Sig], pos: usize) -> bool
    requires { pos < length bits.now }
    ensures { result ≡ drivers.continues_run bits.now pos }
{
    pos + 1 < bits.len() && is_left_of(bits[pos + 1], bits[pos])
}

/// Whether the position at its right goes on with its run.
fn is_run_continued(bits: &[Sig], pos: usize) -> bool
    requires { pos < length bits.now }
    ensures { result ≡ drivers.is_run_continued bits.now pos }
{
    pos > 0 && continues_run(bits, pos - 1)
}

/// A tilde, for a signal that is a bit's inverse.
fn tilde_if(inverted: bool) -> &'static [u8]
    ensures { result.now ≡ cond inverted (codes "~") [] }
{
    if inverted { b"~" } else { b"" }
}

/// A comma, for a run that isn't the first.
fn comma_unless(first: bool) -> &'static [u8]
    ensures { result.now ≡ cond first [] (codes ",") }
{
    if first { b"" } else { b"," }
}

/// Writes the beginning of a run at a register bit.
fn put_bit_start<K: Sink>(
    net: &Net,
    bit: BitId,
    inverted: bool,
    k: &mut K,
) -> Result<(), StoreFault>
    requires well_formed { IsNet net.now }
    requires there { bit.reg < length net.now.regs.items }
    ensures whole { OnOk result
        (Adds (K.taken k.old) (K.taken k.new) (drivers.run_start net.now (sig.Bit bit inverted))) }
    ensures part { OnErr result
        (AddsPart (K.taken k.old) (K.taken k.new) (drivers.run_start net.now (sig.Bit bit inverted))) }
    ensures cause { HasCause (K.faults k.old) (K.faults k.new) result StoreFault.Failed }
{
    k.write(tilde_if(inverted))?;
    put_open_name(net, bit, k)?;
    Ok(())
}

/// Writes the beginning of a run.
fn put_run_start<K: Sink>(net: &Net, signal: Sig, k: &mut K) -> Result<(), StoreFault>
    requires well_formed { IsNet net.now }
    requires there { IsInputOf net.now signal }
    ensures whole { OnOk result (Adds (K.taken k.old) (K.taken k.new) (drivers.run_start net.now signal)) }
    ensures part { OnErr result
        (AddsPart (K.taken k.old) (K.taken k.new) (drivers.run_start net.now signal)) }
    ensures cause { HasCause (K.faults k.old) (K.faults k.new) result StoreFault.Failed }
{
    match signal {
        Sig::Zero => k.write(b"0"),
        Sig::One => k.write(b"1"),
        Sig::Bit { bit, inverted } => put_bit_start(net, bit, inverted, k),
        _ => k.write(b"-"),
    }
}

/// Writes the beginning of a run, after a comma unless it is the first.
fn put_run<K: Sink>(net: &Net, first: bool, signal: Sig, k: &mut K) -> Result<(), StoreFault>
    requires well_formed { IsNet net.now }
    requires there { IsInputOf net.now signal }
    ensures whole { OnOk result (Adds (K.taken k.old) (K.taken k.new)
        (cond first [] (codes ",") ++ drivers.run_start net.now signal)) }
    ensures part { OnErr result (AddsPart (K.taken k.old) (K.taken k.new)
        (cond first [] (codes ",") ++ drivers.run_start net.now signal)) }
    ensures cause { HasCause (K.faults k.old) (K.faults k.new) result StoreFault.Failed }
{
    k.write(comma_unless(first))?;
    put_run_start(net, signal, k)?;
    Ok(())
}

/// Writes what a position begins with: a run, or nothing where it goes on with one.
fn put_pos_start<K: Sink>(
    net: &Net,
    continues_run: bool,
    first: bool,
    signal: Sig,
    k: &mut K,
) -> Result<(), StoreFault>
    requires well_formed { IsNet net.now }
    requires there { IsInputOf net.now signal }
    ensures whole { OnOk result (Adds (K.taken k.old) (K.taken k.new)
        (cond continues_run [] (cond first [] (codes ",") ++ drivers.run_start net.now signal))) }
    ensures part { OnErr result (AddsPart (K.taken k.old) (K.taken k.new)
        (cond continues_run [] (cond first [] (codes ",") ++ drivers.run_start net.now signal))) }
    ensures cause { HasCause (K.faults k.old) (K.faults k.new) result StoreFault.Failed }
{
    if continues_run {
        k.write(b"")
    } else {
        put_run(net, first, signal, k)
    }
}

/// Writes the right index of a run, if it has more than one bit, and a bracket.
#[tactic(auto, unfolding(ij_io::specs::Words::words_text))]
fn put_index<K: Sink>(net: &Net, bit: BitId, more: bool, k: &mut K) -> Result<(), StoreFault>
    requires well_formed { IsNet net.now }
    requires there { bit.reg < length net.now.regs.items }
    ensures whole { OnOk result (Adds (K.taken k.old) (K.taken k.new) (drivers.last_index net.now bit more)) }
    ensures part { OnErr result
        (AddsPart (K.taken k.old) (K.taken k.new) (drivers.last_index net.now bit more)) }
    ensures cause { HasCause (K.faults k.old) (K.faults k.new) result StoreFault.Failed }
{
    if more {
        let index = index_of(net, bit);
        put_words(
            k,
            &[Word::Text(b":"), Word::Number(index), Word::Text(b"]")],
        )
    } else {
        k.write(b"]")
    }
}

/// Writes the end of a run, which has more than one bit or one.
fn put_run_end<K: Sink>(net: &Net, more: bool, signal: Sig, k: &mut K) -> Result<(), StoreFault>
    requires well_formed { IsNet net.now }
    requires there { IsInputOf net.now signal }
    ensures whole { OnOk result (Adds (K.taken k.old) (K.taken k.new) (drivers.run_end net.now more signal)) }
    ensures part { OnErr result
        (AddsPart (K.taken k.old) (K.taken k.new) (drivers.run_end net.now more signal)) }
    ensures cause { HasCause (K.faults k.old) (K.faults k.new) result StoreFault.Failed }
{
    match signal {
        Sig::Bit { bit, .. } => put_index(net, bit, more, k),
        _ => k.write(b""),
    }
}

/// Writes what a position ends with: the end of its run, or nothing where the run goes on.
fn put_pos_end<K: Sink>(
    net: &Net,
    is_run_continued: bool,
    more: bool,
    signal: Sig,
    k: &mut K,
) -> Result<(), StoreFault>
    requires well_formed { IsNet net.now }
    requires there { IsInputOf net.now signal }
    ensures whole { OnOk result
        (Adds (K.taken k.old) (K.taken k.new) (cond is_run_continued []
        (drivers.run_end net.now more signal))) }
    ensures part { OnErr result (AddsPart (K.taken k.old) (K.taken k.new)
        (cond is_run_continued [] (drivers.run_end net.now more signal))) }
    ensures cause { HasCause (K.faults k.old) (K.faults k.new) result StoreFault.Failed }
{
    if is_run_continued {
        k.write(b"")
    } else {
        put_run_end(net, more, signal, k)
    }
}

/// The signal at a position.
fn signal_at(bits: &[Sig], pos: usize) -> Sig
    requires { pos < length bits.now }
    ensures { result ≡ get_or bits.now pos sig.Absent }
{
    bits[pos]
}

/// Whether a position is the left one.
fn is_leftmost(bits: &[Sig], pos: usize) -> bool
    requires { pos < length bits.now }
    ensures { result ≡ (suc pos == length bits.now) }
{
    pos + 1 == bits.len()
}

/// Writes one position of what drives an input.
fn put_driver<K: Sink>(net: &Net, bits: &[Sig], pos: usize, k: &mut K) -> Result<(), StoreFault>
    requires well_formed { IsNet net.now }
    requires inputs { All (IsInputOf net.now) bits.now }
    requires there { pos < length bits.now }
    ensures whole { OnOk result (Adds (K.taken k.old) (K.taken k.new) (drivers.driver net.now bits.now pos)) }
    ensures part { OnErr result
        (AddsPart (K.taken k.old) (K.taken k.new) (drivers.driver net.now bits.now pos)) }
    ensures cause { HasCause (K.faults k.old) (K.faults k.new) result StoreFault.Failed }
{
    let signal = signal_at(bits, pos);
    let first = is_leftmost(bits, pos);
    let more = continues_run(bits, pos);
    let followed = is_run_continued(bits, pos);
    put_pos_start(net, more, first, signal, k)?;
    put_pos_end(net, followed, more, signal, k)?;
    Ok(())
}

/// Writes what drives the bits of an input, from the left one on.
pub(crate) fn put_drivers<K: Sink>(net: &Net, bits: &[Sig], k: &mut K) -> Result<(), StoreFault>
    requires well_formed { IsNet net.now }
    requires inputs { All (IsInputOf net.now) bits.now }
    ensures whole { OnOk result
        (Adds (K.taken k.old) (K.taken k.new) (drivers.drivers net.now bits.now (length bits.now))) }
    ensures part { OnErr result
        (AddsPart (K.taken k.old) (K.taken k.new) (drivers.drivers net.now bits.now (length bits.now))) }
    ensures cause { HasCause (K.faults k.old) (K.faults k.new) result StoreFault.Failed }
{
    for j in 0..bits.len() {
        put_driver(net, bits, bits.len() - 1 - j, k)?;
    }
    Ok(())
}
