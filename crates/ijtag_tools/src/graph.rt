// The command `picture dot`: a graph, also of a network that has no nested form.
ghost use Rattle.std.specs.Prelude.{◌≡◌, [], ◌∷◌, Some, IfOk, IfErr, OnErr, OnOk};
ghost use Rattle.ij_io.specs.Bytes.{Adds};
ghost use Rattle.net_graph.specs.Nets.{IsNet};
ghost use Rattle.ijtag_stages.specs.Follows.{Follows};
ghost use Rattle.ijtag_tools.specs.SeenGraphs.{seen_graph, seen_unnested};
ghost use Rattle.ijtag_tools.specs.Order.{cell_of, comment, graph, graph_in, graph_text};
ghost use Rattle.ijtag_tools.specs.Words.{seen_graph_words};
ghost use Rattle.ijtag_work.specs.Follows.{AreTexts, seen_texts};
ghost use Rattle.ijtag_work.specs.Loads.{names_of};
ghost use Rattle.ijtag_work.specs.Runs.{AreFirstWritten, IsDone, IsPartDone, IsStop, OnlyTheseChange};
ghost use Rattle.ijtag_work.specs.Runs.{OnlyTheseRise, counts, seen};
ghost use Rattle.ijtag_work.specs.Seen.{differing, seen_stop};
ghost use Rattle.ijtag_work.specs.Stops.{IsEarly};
ghost use Rattle.ijtag_work.specs.Task.{work};
ghost use Rattle.std.specs.Option.{option_map};

use crate::unnested::{Graph, Unnested, read_graph};
use crate::words::GraphWords;
use ij_bits::OutOfMemory;
use ij_io::{Shelf, Sink, StoreFault, SureSink};
use ijtag_stages::{StageFault, put_refusal, read_device, read_icl};
use ijtag_work::{Inputs, Stop, Verdict, write_file};
use net_graph::{Holds, Point};
use net_picture::put_dot;
use std::alloc::Global;

/// The network of the texts of the files, and why it has no nested form, where it has none.
#[tactic(auto, unfolding(crate::specs::Order::graph_of))]
fn accept(alloc: Global, texts: &[Vec<u8>], top: &str) -> Result<Graph, StageFault>
    requires { AreTexts 2 (seen_texts texts.now) }
    ensures follows { Follows (graph_in top.now (seen_texts texts.now)) seen_graph result }
    ensures well_formed { IfOk result (λ graph. IsNet graph.net) }
{
    let [icl, device] = texts else { unreachable!() };
    let design = read_icl(alloc, icl)?;
    let device = read_device(alloc, device)?;
    read_graph(alloc, &design, top, &device)
}

/// Writes a comment that says why a network has no nested form, where it has none.
fn put_comment(unnested: &Option<Unnested>, text: &mut SureSink) -> Result<(), StoreFault>
    ensures { OnOk result
        (Adds (Some text.old) (Some text.new) (comment (option_map seen_unnested unnested.now))) }
{
    match unnested {
        None => Ok(()),
        Some(why) => {
            text.write(b"// ")?;
            put_refusal(&why.refusal, text)?;
            Ok(())
        }
    }
}

/// What a network's graph marks: the register or multiplexer for which it has no nested form.
fn marked(unnested: &Option<Unnested>) -> Option<Point>
    ensures { result ≡ cell_of (option_map seen_unnested unnested.now) }
{
    match unnested {
        None => None,
        Some(why) => why.cell,
    }
}

/// Writes the graph of a network, with the active path at power-up.
#[tactic(auto, using(net_graph::proofs::Widths::start_held), unfolding(crate::specs::Order::graph_text))]
fn put_graph(alloc: Global, graph: &Graph, text: &mut SureSink) -> Result<(), StoreFault>
    requires { IsNet graph.now.net }
    ensures { OnOk result (Adds (Some text.old) (Some text.new) (graph_text (seen_graph graph.now))) }
{
    let holds = Holds::power_up(alloc, &graph.net)?;
    put_comment(&graph.unnested, text)?;
    put_dot(alloc, &graph.net, &holds, marked(&graph.unnested), text)?;
    Ok(())
}

/// The text of a network's graph.
fn make_text(alloc: Global, graph: &Graph) -> Result<SureSink, OutOfMemory>
    requires { IsNet graph.now.net }
    ensures { IfOk result (λ text. text ≡ graph_text (seen_graph graph.now)) }
{
    let mut text = SureSink::new(alloc);
    match put_graph(alloc, graph, &mut text) {
        Ok(()) => Ok(text),
        Err(_) => Err(OutOfMemory),
    }
}

/// Loads the two files, accepts what they hold as a network, which may have no nested form, and writes its
/// graph to the file. It prints nothing.
pub fn draw_graph<'a, S: Shelf, O: Sink>(
    alloc: Global,
    words: &'a GraphWords<'a>,
    shelf: &mut S,
    _out: &mut O,
) -> Result<Verdict, Stop<'a>>
    ensures done { IfOk result
        (λ verdict. IsDone (work (S.files shelf.old) (graph (seen_graph_words words.now)))
        (seen S.files O.taken shelf.old _out.old)
        (seen S.files O.taken shelf.new _out.new) (differing verdict)) }
    ensures stop { IfErr result (λ stop. IsStop (S.files shelf.old) (graph (seen_graph_words words.now))
        (counts S.load_faults S.store_faults O.faults shelf.old shelf.new _out.old _out.new)
        (seen_stop stop)) }
    ensures early { IfErr result (λ stop. IsEarly (seen_stop stop)
        → AreFirstWritten (graph (seen_graph_words words.now)).begins
        (graph (seen_graph_words words.now)).first_writes (S.files shelf.old) (S.files shelf.new)) }
    ensures part { OnErr result (IsPartDone (S.files shelf.old) (graph (seen_graph_words words.now))
        (seen S.files O.taken shelf.old _out.old) (seen S.files O.taken shelf.new _out.new)) }
    ensures files { OnlyTheseChange (words.now.graph.now ∷ []) (S.files shelf.old) (S.files shelf.new) }
    ensures out { _out.new ≡ _out.old }
    ensures loads { OnlyTheseRise (names_of (graph (seen_graph_words words.now)).loads)
        (S.load_faults shelf.old) (S.load_faults shelf.new) }
    ensures stores { OnlyTheseRise (words.now.graph.now ∷ [])
        (S.store_faults shelf.old) (S.store_faults shelf.new) }
{
    let texts = words.network.load(alloc, shelf)?;
    let graph = accept(alloc, &texts, words.network.top)?;
    let text = make_text(alloc, &graph)?;
    match write_file(words.graph, text.bytes(), shelf) {
        Ok(()) => Ok(Verdict::Agrees),
        Err(fault) => Err(Stop::of_file(fault, words.graph)),
    }
}
