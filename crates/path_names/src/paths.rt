// The paths of instances, things and muxes.
ghost use Rattle.std.specs.Prelude.{◌≡◌, ◌<◌, [], map, get_or, length, OnOk, OnErr};
ghost use Rattle.std.specs.List.{flat_map};
ghost use Rattle.ij_io.specs.Bytes.{Adds, AddsPart};
ghost use Rattle.ij_io.specs.Causes.{HasCause};
ghost use Rattle.net_graph.specs.Nets.{IsNet};
ghost use Rattle.net_graph.specs.PathNames.{with_dot, after_dot, joined, node_names, instance_path};
ghost use Rattle.net_graph.specs.PathNames.{thing_path, mux_path};

use ij_io::{Sink, StoreFault};
use ij_text::Name;
use net_graph::Net;

/// Writes a name.
///
/// The refusals are those of the sink, which then took some first bytes of the name. It takes no memory
/// itself.
pub fn put_name<K: Sink>(name: &Name, k: &mut K) -> Result<(), StoreFault>
    ensures whole { OnOk result (Adds (K.taken k.old) (K.taken k.new) name.now.items) }
    ensures part { OnErr result (AddsPart (K.taken k.old) (K.taken k.new) name.now.items) }
    ensures cause { HasCause (K.faults k.old) (K.faults k.new) result StoreFault.Failed }
{
    k.write(name.as_slice())
}

/// Writes a name and a dot.
fn put_with_dot<K: Sink>(name: &Name, k: &mut K) -> Result<(), StoreFault>
    ensures whole { OnOk result (Adds (K.taken k.old) (K.taken k.new) (with_dot name.now)) }
    ensures part { OnErr result (AddsPart (K.taken k.old) (K.taken k.new) (with_dot name.now)) }
    ensures cause { HasCause (K.faults k.old) (K.faults k.new) result StoreFault.Failed }
{
    put_name(name, k)?;
    k.write(b".")?;
    Ok(())
}

/// Writes a dot and a name.
fn put_after_dot<K: Sink>(name: &Name, k: &mut K) -> Result<(), StoreFault>
    ensures whole { OnOk result (Adds (K.taken k.old) (K.taken k.new) (after_dot name.now)) }
    ensures part { OnErr result (AddsPart (K.taken k.old) (K.taken k.new) (after_dot name.now)) }
    ensures cause { HasCause (K.faults k.old) (K.faults k.new) result StoreFault.Failed }
{
    k.write(b".")?;
    put_name(name, k)?;
    Ok(())
}

/// Writes each name with a dot after it.
fn put_all_with_dots<K: Sink>(names: &[Name], k: &mut K) -> Result<(), StoreFault>
    ensures whole { OnOk result (Adds (K.taken k.old) (K.taken k.new) (flat_map with_dot names.now)) }
    ensures part { OnErr result (AddsPart (K.taken k.old) (K.taken k.new) (flat_map with_dot names.now)) }
    ensures cause { HasCause (K.faults k.old) (K.faults k.new) result StoreFault.Failed }
{
    for name in names {
        put_with_dot(name, k)?;
    }
    Ok(())
}

/// Writes each name after a dot.
fn put_all_after_dots<K: Sink>(names: &[Name], k: &mut K) -> Result<(), StoreFault>
    ensures whole { OnOk result (Adds (K.taken k.old) (K.taken k.new) (flat_map after_dot names.now)) }
    ensures part { OnErr result (AddsPart (K.taken k.old) (K.taken k.new) (flat_map after_dot names.now)) }
    ensures cause { HasCause (K.faults k.old) (K.faults k.new) result StoreFault.Failed }
{
    for name in names {
        put_after_dot(name, k)?;
    }
    Ok(())
}

/// Writes names joined by dots.
fn put_joined<K: Sink>(names: &[Name], k: &mut K) -> Result<(), StoreFault>
    ensures whole { OnOk result (Adds (K.taken k.old) (K.taken k.new) (joined names.now)) }
    ensures part { OnErr result (AddsPart (K.taken k.old) (K.taken k.new) (joined names.now)) }
    ensures cause { HasCause (K.faults k.old) (K.faults k.new) result StoreFault.Failed }
{
    match names {
        [first, rest @ ..] => {
            put_name(first, k)?;
            put_all_after_dots(rest, k)?;
            Ok(())
        }
        [] => Ok(()),
    }
}

/// The instance names of a node.
fn names_of(net: &Net, node: u32) -> &[Name]
    requires { node < length net.now.nodes.items }
    ensures { result.now ≡ node_names net.now node }
{
    net.nodes.get(node as usize).path.as_slice()
}

/// The node of a thing.
fn node_of_thing(net: &Net, thing: u32) -> u32
    requires well_formed { IsNet net.now }
    requires there { thing < length net.now.things.items }
    ensures node { result ≡ get_or (map (λ t. t.node) net.now.things.items) thing 0 }
    ensures there { result < length net.now.nodes.items }
{
    net.things.get(thing as usize).node
}

/// The name of a thing.
fn name_of_thing(net: &Net, thing: u32) -> &Name
    requires { thing < length net.now.things.items }
    ensures { result.now.items ≡ get_or (map (λ t. t.name.items) net.now.things.items) thing [] }
{
    &net.things.get(thing as usize).name
}

/// Writes the path of an instance, by its node: the names below the top, joined by dots (IEEE 1687-2014, ICL:
/// `Instance`). The top's path is empty.
///
/// The refusals are those of the sink, which then took some first bytes of the path. It takes no memory
/// itself.
pub fn put_instance_path<K: Sink>(net: &Net, node: u32, k: &mut K) -> Result<(), StoreFault>
    requires there { node < length net.now.nodes.items }
    ensures whole { OnOk result (Adds (K.taken k.old) (K.taken k.new) (instance_path net.now node)) }
    ensures part { OnErr result (AddsPart (K.taken k.old) (K.taken k.new) (instance_path net.now node)) }
    ensures cause { HasCause (K.faults k.old) (K.faults k.new) result StoreFault.Failed }
{
    put_joined(names_of(net, node), k)
}

/// Writes the path of a thing, which is a register, data port or alias: the names of its node and its own,
/// joined by dots (IEEE 1687-2014, ICL: `ScanRegister`, `DataInPort`, `DataOutPort`, `Alias`).
///
/// The refusals are those of the sink, which then took some first bytes of the path. It takes no memory
/// itself.
pub fn put_thing_path<K: Sink>(net: &Net, thing: u32, k: &mut K) -> Result<(), StoreFault>
    requires well_formed { IsNet net.now }
    requires there { thing < length net.now.things.items }
    ensures whole { OnOk result (Adds (K.taken k.old) (K.taken k.new) (thing_path net.now thing)) }
    ensures part { OnErr result (AddsPart (K.taken k.old) (K.taken k.new) (thing_path net.now thing)) }
    ensures cause { HasCause (K.faults k.old) (K.faults k.new) result StoreFault.Failed }
{
    let names = names_of(net, node_of_thing(net, thing));
    let name = name_of_thing(net, thing);
    put_all_with_dots(names, k)?;
    put_name(name, k)?;
    Ok(())
}

/// The node of a mux.
fn node_of_mux(net: &Net, mux: u32) -> u32
    requires well_formed { IsNet net.now }
    requires there { mux < length net.now.muxes.items }
    ensures node { result ≡ get_or (map (λ m. m.node) net.now.muxes.items) mux 0 }
    ensures there { result < length net.now.nodes.items }
{
    net.muxes.get(mux as usize).node
}

/// The name of a mux.
fn name_of_mux(net: &Net, mux: u32) -> &Name
    requires { mux < length net.now.muxes.items }
    ensures { result.now.items ≡ get_or (map (λ m. m.name.items) net.now.muxes.items) mux [] }
{
    &net.muxes.get(mux as usize).name
}

/// Writes the path of a scan multiplexer: the names of its node and its own, joined by dots (IEEE 1687-2014,
/// ICL: `ScanMux`).
///
/// The refusals are those of the sink, which then took some first bytes of the path. It takes no memory
/// itself.
pub fn put_mux_path<K: Sink>(net: &Net, mux: u32, k: &mut K) -> Result<(), StoreFault>
    requires well_formed { IsNet net.now }
    requires there { mux < length net.now.muxes.items }
    ensures whole { OnOk result (Adds (K.taken k.old) (K.taken k.new) (mux_path net.now mux)) }
    ensures part { OnErr result (AddsPart (K.taken k.old) (K.taken k.new) (mux_path net.now mux)) }
    ensures cause { HasCause (K.faults k.old) (K.faults k.new) result StoreFault.Failed }
{
    let names = names_of(net, node_of_mux(net, mux));
    let name = name_of_mux(net, mux);
    put_all_with_dots(names, k)?;
    put_name(name, k)?;
    Ok(())
}
