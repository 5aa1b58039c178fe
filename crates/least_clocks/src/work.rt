// What a round does to the register bits.
ghost use Rattle.std.specs.Prelude.{◌≡◌, All};
ghost use Rattle.std.specs.List.{list_all};
ghost use Rattle.net_graph.specs.Held.{IsHeld};
ghost use Rattle.net_graph.specs.SeenSteps.{seen_group};
ghost use Rattle.net_graph.specs.Writes as writing;
ghost use Rattle.svf_audit.specs.Work as working;

use net_graph::{Group, Holds, WriteBit};

/// Whether a written bit has its value.
pub(crate) fn has_value(holds: &Holds, write: WriteBit) -> bool
    requires { IsHeld holds.now write.bit }
    ensures { result ≡ working.has_value holds.now write }
{
    holds.get(write.bit) == write.value
}

/// Whether each written bit has its value.
fn have_values(holds: &Holds, writes: &[WriteBit]) -> bool
    requires { All (λ w. IsHeld holds.now w.bit) writes.now }
    ensures { result ≡ list_all (working.has_value holds.now) writes.now }
{
    for w in writes {
        if !has_value(holds, *w) {
            return false;
        }
    }
    true
}

/// Whether a round reads nothing, and writes what is there already.
pub(crate) fn is_redundant(holds: &Holds, group: &Group) -> bool
    requires { All (λ w. IsHeld holds.now w.bit) group.now.writes.items }
    ensures { result ≡ working.is_redundant holds.now (working.Group (seen_group group.now)) }
{
    group.reads.is_empty() && have_values(holds, group.writes.as_slice())
}

/// Writes the bits of a round, one after the other.
pub(crate) fn write_group(holds: &mut Holds, group: &Group)
    requires { All (λ w. IsHeld holds.old w.bit) group.now.writes.items }
    ensures { holds.new ≡ writing.write_all holds.old group.now.writes.items }
{
    for w in group.writes.as_slice() {
        holds.set(w.bit, w.value);
    }
}
