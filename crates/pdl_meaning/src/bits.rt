// Register bits that are written and captured, and clocks of all instruments.
ghost use Rattle.std.specs.Prelude.{◌≡◌, map, length, All};
ghost use Rattle.instruments.specs.Machine.{count_log};
ghost use Rattle.instruments.specs.Models.{IsModel};
ghost use Rattle.instruments.specs.Seen.{seen_model};
ghost use Rattle.net_graph.specs.Held.{IsHeld};
ghost use Rattle.net_graph.specs.Named.{IsBitOf, IsSignalOf};
ghost use Rattle.net_graph.specs.Nets.{IsNet};
ghost use Rattle.net_graph.specs.Signals.{capture_signal, Holds as Held};
ghost use Rattle.net_graph.specs.Writes as writing;
ghost use Rattle.net_graph.specs.declared.net.Net.{Net as TheNet};
ghost use Rattle.pdl_meaning.specs.Direct.{run_cycles};
ghost use Rattle.pdl_meaning.specs.States.{Reads, direct_at};
ghost use Rattle.instruments.specs.Runners.{machines_of, insts_of, AreRunning};

use ij_bits::List;
use instruments::{Model, Runner, run_all};
use net_graph::{BitId, Holds, Net, Sig, WriteBit};

/// What a register bit captures.
pub(crate) fn capture_of(net: &Net, bit: BitId) -> Sig
    requires well_formed { IsNet net.now }
    requires there { IsBitOf net.now bit }
    ensures signal { result ≡ capture_signal net.now bit }
    ensures there { IsSignalOf net.now result }
{
    *net.regs.get(bit.reg as usize).capture.get(bit.pos as usize)
}

/// Writes register bits, one after the other.
pub(crate) fn write_bits(holds: &mut Holds, writes: &[WriteBit])
    requires { All (λ w. IsHeld holds.old w.bit) writes.now }
    ensures { holds.new ≡ writing.write_all holds.old writes.now }
{
    for w in writes {
        holds.set(w.bit, w.value);
    }
}

/// This many clocks in Run-Test/Idle, for every instrument.
pub(crate) fn run_times(models: &List<Model>, runners: &mut [Runner], cycles: u32)
    requires models { All (λ m. IsModel (seen_model m)) models.now.items }
    requires count { length runners.old ≡ length models.now.items }
    ensures shown { map (λ r. r.inputs) runners.new ≡ map (λ r. r.inputs) runners.old }
    ensures state { (net : TheNet) (holds : Held) (reads : Reads)
        → AreRunning net models.now.items holds runners.old
        → direct_at holds (insts_of runners.new) reads ≡ run_cycles count_log net
        (machines_of models.now.items) cycles (direct_at holds (insts_of runners.old) reads) }
{
    for _ in 0..cycles {
        run_all(models, runners);
    }
}
