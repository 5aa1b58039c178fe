// The text of one scan (Serial Vector Format, revision E: SDR).
ghost use Rattle.std.specs.Prelude.{◌≡◌, reverse, OnOk, OnErr};
ghost use Rattle.ij_io.specs.Bytes.{Adds, AddsPart};
ghost use Rattle.ij_io.specs.Causes.{HasCause};
ghost use Rattle.net_graph.specs.Chain.{chain};
ghost use Rattle.net_graph.specs.Nets.{IsNet};
ghost use Rattle.net_graph.specs.Path.{route_of};
ghost use Rattle.net_graph.specs.Writes.{write_all};
ghost use Rattle.scan_packer.specs.HeldPaths.{IsHeldPath};
ghost use Rattle.scan_packer.specs.Packing.{CanScan, plan_of};
ghost use Rattle.svf_writer.specs.SeenCommands.{SDR};
ghost use Rattle.svf_writer.specs.Written.{text_of};
ghost use Rattle.headline.specs.Scans.{scan_of};
ghost use Rattle.retargeter.specs.Room.{HasScanRoom};
ghost use Rattle.retargeter.specs.Packed.{quiet_scan, comparing_scan};

use crate::buffers::Buffers;
use ij_bits::Bits;
use ij_io::{Sink, StoreFault, Word, put_words};
use net_graph::{Holds, Net, ReadBit, WriteBit};
use scan_packer::{HeldPath, pack_reads_on, pack_tdi_on};
use svf_writer::put_bits_part;

/// Writes a scan that compares nothing.
#[tactic(auto, unfolding(ij_io::specs::Words::words_text))]
fn put_scan<'a, K: Sink>(tdi: &'a Bits, k: &mut K) -> Result<(), StoreFault>
    ensures whole { OnOk result
        (Adds (K.taken k.old) (K.taken k.new) (text_of (SDR (quiet_scan tdi.now.items)))) }
    ensures part { OnErr result
        (AddsPart (K.taken k.old) (K.taken k.new) (text_of (SDR (quiet_scan tdi.now.items)))) }
    ensures cause { HasCause (K.faults k.old) (K.faults k.new) result StoreFault.Failed }
{
    put_words(k, &[Word::Text(b"SDR "), Word::Number(tdi.len() as u64)])?;
    put_bits_part(b" TDI (", tdi, k)?;
    k.write(b";\n")?;
    Ok(())
}

/// Writes a scan that compares TDO where MASK is 1.
#[tactic(auto, unfolding(ij_io::specs::Words::words_text))]
fn put_scan_compared<'a, K: Sink>(
    tdi: &'a Bits,
    tdo: &'a Bits,
    mask: &'a Bits,
    k: &mut K,
) -> Result<(), StoreFault>
    ensures whole { OnOk result (Adds (K.taken k.old) (K.taken k.new)
        (text_of (SDR (comparing_scan tdi.now.items tdo.now.items mask.now.items)))) }
    ensures part { OnErr result (AddsPart (K.taken k.old) (K.taken k.new)
        (text_of (SDR (comparing_scan tdi.now.items tdo.now.items mask.now.items)))) }
    ensures cause { HasCause (K.faults k.old) (K.faults k.new) result StoreFault.Failed }
{
    put_words(k, &[Word::Text(b"SDR "), Word::Number(tdi.len() as u64)])?;
    put_bits_part(b" TDI (", tdi, k)?;
    put_bits_part(b" TDO (", tdo, k)?;
    put_bits_part(b" MASK (", mask, k)?;
    k.write(b";\n")?;
    Ok(())
}

/// Writes a scan over a kept path that writes and reads these bits, with TDO and MASK where it reads some,
/// and leaves what it shifts in in the buffers. Takes no memory.
pub(crate) fn put_scan_on<K: Sink>(
    net: &Net,
    holds: &Holds,
    path: &HeldPath,
    writes: &[WriteBit],
    reads: &[ReadBit],
    buffers: &mut Buffers,
    k: &mut K,
) -> Result<(), StoreFault>
    requires well_formed { IsNet net.now }
    requires path { IsHeldPath net.now holds.now path.now }
    requires plan { CanScan net.now holds.now (plan_of writes.now reads.now) }
    requires room { HasScanRoom net.now buffers.old }
    ensures whole { OnOk result (Adds (K.taken k.old) (K.taken k.new)
        (text_of (SDR (scan_of net.now holds.now (route_of net.now holds.now)
        (plan_of writes.now reads.now))))) }
    ensures part { OnErr result (AddsPart (K.taken k.old) (K.taken k.new)
        (text_of (SDR (scan_of net.now holds.now (route_of net.now holds.now)
        (plan_of writes.now reads.now))))) }
    ensures cause { HasCause (K.faults k.old) (K.faults k.new) result StoreFault.Failed }
    ensures tdi { buffers.new.tdi.items
        ≡ chain (reverse path.now.route.items) (write_all holds.now writes.now) }
    ensures room { HasScanRoom net.now buffers.new }
{
    pack_tdi_on(net, holds, path, writes, &mut buffers.tdi);
    if reads.is_empty() {
        return put_scan(&buffers.tdi, k);
    }
    pack_reads_on(net, holds, path, reads, &mut buffers.tdo, &mut buffers.mask);
    put_scan_compared(&buffers.tdi, &buffers.tdo, &buffers.mask, k)
}
