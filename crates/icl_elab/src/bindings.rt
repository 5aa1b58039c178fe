// What an instance binds its input ports to, bit by bit.
ghost use Rattle.std.specs.Prelude.{◌≡◌, ◌+◌, ◌-◌, ◌==◌, ◌++◌, ◌∷◌, [], map, slice_index_or, false, IfOk};
ghost use Rattle.std.specs.Prelude.{IfErr};
ghost use Rattle.std.specs.List.{list_any, list_all, position_from, range_with_len};
ghost use Rattle.std.specs.Option.{option_map};
ghost use Rattle.ij_text.specs.Options.{same};
ghost use Rattle.icl_lexer.specs.Views.{seen_bind, seen_range, seen_sig, seen_what};
ghost use Rattle.icl_declarations.specs.Parts.{is_input, port_that};
ghost use Rattle.icl_declarations.specs.Ranges.{positions, width};
ghost use Rattle.icl_declarations.specs.Faults.{Gives, each, over};
ghost use Rattle.icl_elab.specs.Bindings.{binds_bit, is_bound, single_ref, bound_refs, bind, ref_at, refs_of};
ghost use Rattle.icl_elab.specs.Marks.{bound_in, is_whole_part, nowhere, seen_bound};
ghost use Rattle.icl_references.specs.Roles.{seen_refs};
ghost use Rattle.icl_references.specs.Signals.{scan_signal};
ghost use Rattle.icl_references.specs.Tables.{IsHere, frames_of, here_in, no_frame, seen_member};

use crate::marks::{ClosedRow, Row, closed_rows, note};
use icl_declarations::ElabFault;
use icl_frames::{Stretch, is_data_in_port, is_input, is_scan_in_port, named_positions, width};
use icl_lexer::{Bind, Range, Sig, SmallText, What};
use icl_references::{Member, Ref, Tables, control_signals, data_signals, scan_signal};
use ij_bits::OutOfMemory;
use ij_runs::Runs;
use ij_text::{Place, name_of};
use std::alloc::Global;
use std::marker::Model;

/// Bits of an input port that are bound, and what they are bound to, position 0 first: nothing that is kept,
/// for a control port.
#[derive(Drop)]
pub(crate) struct Bound {
    /// The port, by its number among the parts.
    pub part: u32,
    /// The positions.
    pub stretch: Stretch,
    /// What they are bound to.
    pub refs: Runs<Ref>,
}

/// The bindings of an instance, in the order of the text, while more come. Whether a bit is bound is found
/// without a search.
///
/// Contracts see the list of the bindings.
#[derive(Drop)]
pub struct OpenBindings {
    bounds: Vec<Bound>,
    rows: Vec<Row>,
}

impl Model for OpenBindings {
    ghost use Rattle.std.specs.Prelude.{List, map};
    ghost use Rattle.icl_elab.specs.Bindings.{Bound};
    ghost use Rattle.icl_elab.specs.Marks.{AreMarked, seen_bound};

    ghost Value = { List Bound };

    ghost view = { λ b. map seen_bound b.bounds.items };

    ghost invariant = { λ b. AreMarked b.rows.items (map seen_bound b.bounds.items) };
}

/// The bindings of an instance, in the order of the text. What a bit is bound to is found without a search of
/// all of them.
///
/// Contracts see the list of the bindings.
#[derive(Drop)]
pub struct Bindings {
    bounds: Vec<Bound>,
    rows: Vec<ClosedRow>,
}

impl Model for Bindings {
    ghost use Rattle.std.specs.Prelude.{List, map};
    ghost use Rattle.icl_elab.specs.Bindings.{Bound};
    ghost use Rattle.icl_elab.specs.Marks.{AreMarked, seen_bound};

    ghost Value = { List Bound };

    ghost view = { λ b. map seen_bound b.bounds.items };

    ghost invariant = { λ b. AreMarked b.rows.items (map seen_bound b.bounds.items) };
}

impl OpenBindings {
    /// No bindings. Takes no memory.
    fn new(alloc: Global) -> OpenBindings
        ensures { result ≡ [] }
    {
        OpenBindings {
            bounds: Vec::new(alloc),
            rows: Vec::new(alloc),
        }
    }

    /// The bindings with one more.
    fn with(self, alloc: Global, bound: Bound) -> Result<OpenBindings, ElabFault>
        ensures ok { IfOk result (λ b. b ≡ self ++ seen_bound bound ∷ []) }
        ensures told { IfErr result (λ e. e ≡ ElabFault.OutOfMemory) }
    {
        let OpenBindings { bounds, rows } = self;
        let mut bounds = bounds;
        let mut rows = rows;
        note(alloc, &mut rows, bound.part, bound.stretch, bounds.len())?;
        bounds.push(bound)?;
        Ok(OpenBindings { bounds, rows })
    }

    /// The bindings, to which no more come.
    pub(crate) fn closed(self, alloc: Global) -> Result<Bindings, OutOfMemory>
        ensures { IfOk result (λ b. b ≡ self) }
    {
        let OpenBindings { bounds, rows } = self;
        let rows = closed_rows(alloc, &rows)?;
        Ok(Bindings { bounds, rows })
    }

    /// The number of the binding of a bit, if there is one.
    fn number_of(&self, part: u32, pos: usize) -> Option<usize>
        ensures { result ≡ position_from (binds_bit part pos) 0 self.now }
    {
        let part = part as usize;
        if part < self.rows.len() {
            self.rows[part].get(pos)
        } else {
            None
        }
    }

    /// Whether a bit is bound.
    fn is_bound(&self, part: u32, pos: usize) -> bool
        ensures { result ≡ is_bound self.now part pos }
    {
        self.number_of(part, pos).is_some()
    }

    /// Whether a port is bound somewhere.
    fn binds(&self, part: u32) -> bool
        ensures { result ≡ list_any (λ b. b.part == part) self.now }
    {
        let part = part as usize;
        part < self.rows.len() && !self.rows[part].is_empty()
    }

    /// Whether some of these bits are bound.
    fn binds_some(&self, part: u32, s: Stretch) -> bool
        ensures { result ≡ list_any (is_bound self.now part) (positions s) }
    {
        let low = s.low as usize;
        let count = (s.high as usize + 1).saturating_sub(low);
        for k in 0..count {
            if self.is_bound(part, low + k) {
                return true;
            }
        }
        false
    }

    /// Whether this many bits of a port are bound.
    fn binds_all(&self, part: u32, wide: usize) -> bool
        ensures { result ≡ list_all (is_bound self.now part) (range_with_len 0 wide) }
    {
        for pos in 0..wide {
            if !self.is_bound(part, pos) {
                return false;
            }
        }
        true
    }

    /// Whether a part is bound at all of its bits, or at none.
    fn is_whole(&self, m: &Member) -> bool
        ensures { result ≡ is_whole_part self.now (seen_member m.now) }
    {
        !self.binds(m.part) || self.binds_all(m.part, width(m.bounds) as usize)
    }

    /// Whether each part is bound at all of its bits, or at none.
    pub(crate) fn are_whole(&self, members: &[Member]) -> bool
        ensures { result ≡ list_all (is_whole_part self.now) (map seen_member members.now) }
    {
        for m in members {
            if !self.is_whole(m) {
                return false;
            }
        }
        true
    }
}

impl Bindings {
    /// No bindings. Takes no memory.
    pub fn new(alloc: Global) -> Bindings
        ensures { result ≡ [] }
    {
        Bindings {
            bounds: Vec::new(alloc),
            rows: Vec::new(alloc),
        }
    }

    /// The number of the binding of a bit, if there is one.
    fn number_of(&self, part: u32, pos: usize) -> Option<usize>
        ensures { result ≡ position_from (binds_bit part pos) 0 self.now }
    {
        let part = part as usize;
        if part < self.rows.len() {
            self.rows[part].get(pos)
        } else {
            None
        }
    }

    /// Whether a port is bound somewhere.
    fn binds(&self, part: u32) -> bool
        ensures { result ≡ list_any (λ b. b.part == part) self.now }
    {
        let part = part as usize;
        part < self.rows.len() && !self.rows[part].is_empty()
    }

    /// What a bit is bound to: 0 where it isn't bound.
    fn ref_at(&self, part: u32, pos: usize) -> Ref
        ensures { result ≡ ref_at self.now part pos }
    {
        match self.number_of(part, pos) {
            Some(number) => ref_in(&self.bounds[number], pos),
            None => Ref::Fixed(false),
        }
    }

    /// What a port of this width is bound to, position 0 first, if it is bound.
    pub fn refs_of(
        &self,
        alloc: Global,
        part: u32,
        wide: u32,
    ) -> Result<Option<Runs<Ref>>, OutOfMemory>
        ensures { IfOk result (λ refs. option_map seen_refs refs ≡ refs_of self.now part wide) }
    {
        if !self.binds(part) {
            return Ok(None);
        }
        let refs = self.all_refs(alloc, part, wide)?;
        Ok(Some(refs))
    }

    /// What the bits of a port of this width are bound to, position 0 first.
    fn all_refs(&self, alloc: Global, part: u32, wide: u32) -> Result<Runs<Ref>, OutOfMemory>
        ensures { IfOk result (λ refs. refs.items ≡ map (ref_at self.now part) (range_with_len 0 wide)) }
    {
        let mut refs = Runs::new(alloc);
        for pos in 0..wide as usize {
            refs.push(self.ref_at(part, pos))?;
        }
        Ok(refs)
    }
}

/// What a binding binds a position of its port to.
fn ref_in(bound: &Bound, pos: usize) -> Ref
    ensures { result ≡ slice_index_or bound.now.refs.items (pos - bound.now.stretch.low) (Ref.Fixed false) }
{
    let i = pos.saturating_sub(bound.stretch.low as usize);
    if i < bound.refs.len() {
        bound.refs.get(i)
    } else {
        Ref::Fixed(false)
    }
}

/// Whether an item is an input port.
fn is_input_port(what: &What) -> bool
    ensures { result ≡ port_that is_input (seen_what what.now) }
{
    match what {
        What::Port { kind, .. } => is_input(*kind),
        _ => false,
    }
}

/// The bits that scan signals name, each for itself.
fn scan_signals(
    alloc: Global,
    tables: &Tables,
    here: u32,
    sigs: &[Sig],
) -> Result<Runs<Ref>, ElabFault>
    requires { IsHere tables.now here }
    ensures { Gives seen_refs result
        (each (scan_signal (frames_of tables.now) (here_in tables.now here)) (map seen_sig sigs.now)) }
{
    let mut refs = Runs::new(alloc);
    for sig in sigs {
        let bit = scan_signal(alloc, tables, here, sig)?;
        refs.push(bit)?;
    }
    Ok(refs)
}

/// The one bit of a scan port. `WidthDiffers` where there are more, or none.
fn single_ref(at: Place, refs: Runs<Ref>) -> Result<Runs<Ref>, ElabFault>
    ensures { Gives seen_refs result (single_ref [] nowhere no_frame at refs.items) }
{
    if refs.len() == 1 {
        Ok(refs)
    } else {
        Err(ElabFault::WidthDiffers { at })
    }
}

/// How many positions there are.
fn count_of(s: Stretch) -> Result<u32, ElabFault>
    ensures { Gives same result (Ok (s.high + 1 - s.low)) }
{
    // No part that the first pass lets by has more than 65,536.
    match s.high.checked_add(1) {
        Some(end) => Ok(end.saturating_sub(s.low)),
        None => Err(ElabFault::OutOfMemory),
    }
}

/// What a binding binds bits of a port to.
fn bound_refs(
    alloc: Global,
    tables: &Tables,
    here: u32,
    at: Place,
    what: &What,
    s: Stretch,
    sigs: &[Sig],
) -> Result<Runs<Ref>, ElabFault>
    requires { IsHere tables.now here }
    ensures { Gives seen_refs result (bound_refs (frames_of tables.now) (here_in tables.now here) no_frame at
        (seen_what what.now) s (map seen_sig sigs.now)) }
{
    if is_scan_in_port(what) {
        let refs = scan_signals(alloc, tables, here, sigs)?;
        single_ref(at, refs)
    } else if is_data_in_port(what) {
        let wide = count_of(s)?;
        data_signals(alloc, tables, here, at, wide, sigs)
    } else {
        control_signals(alloc, tables, here, sigs)?;
        Ok(Runs::new(alloc))
    }
}

/// What one binding of a port binds: at an instance of this cell, which is that cell.
#[tactic(auto, unfolding(crate::specs::Marks::bound_in))]
fn bound_in(
    alloc: Global,
    tables: &Tables,
    here: u32,
    child: u32,
    bindings: &OpenBindings,
    at: Place,
    name: &SmallText,
    range: &Option<Range>,
    sigs: &[Sig],
) -> Result<Bound, ElabFault>
    requires here { IsHere tables.now here }
    requires child { IsHere tables.now child }
    ensures { Gives seen_bound result
        (bound_in (frames_of tables.now) (here_in tables.now here) (here_in tables.now child).frame
        bindings.now at name.now.items (option_map seen_range range.now) (map seen_sig sigs.now)) }
{
    let m = tables.named(alloc, child, at, name.as_slice())?;
    if !is_input_port(&m.item.what) {
        return Err(ElabFault::WrongKind { at });
    }
    let stretch = named_positions(alloc, tables.params(here), m.bounds, range)?;
    if bindings.binds_some(m.part, stretch) {
        let name = name_of(alloc, name.as_slice())?;
        return Err(ElabFault::DoubleName { at, name });
    }
    let refs = bound_refs(alloc, tables, here, at, &m.item.what, stretch, sigs)?;
    Ok(Bound {
        part: m.part,
        stretch,
        refs,
    })
}

/// The bindings of an instance of this cell, which is that cell, with one more (IEEE 1687-2014, ICL:
/// `InputPort`). `NoName` of a port that the module hasn't, `WrongKind` of one that is no input, the faults
/// of the range, `DoubleName` at a bit that is bound already, then the faults of the signals, then
/// `WidthDiffers`.
#[tactic(auto, unfolding(crate::specs::Bindings::bind))]
pub(crate) fn bind(
    alloc: Global,
    tables: &Tables,
    here: u32,
    child: u32,
    bindings: OpenBindings,
    binding: &Bind,
) -> Result<OpenBindings, ElabFault>
    requires here { IsHere tables.now here }
    requires child { IsHere tables.now child }
    ensures { Gives same result (bind (frames_of tables.now) (here_in tables.now here)
        (here_in tables.now child).frame bindings (seen_bind binding.now)) }
{
    match binding {
        Bind::Port {
            at,
            name,
            range,
            sigs,
        } => {
            let bound = bound_in(
                alloc,
                tables,
                here,
                child,
                &bindings,
                *at,
                name,
                range,
                sigs.as_slice(),
            )?;
            bindings.with(alloc, bound)
        }
        _ => Ok(bindings),
    }
}

/// All bindings of an instance of this cell, which is that cell. `WidthDiffers` at the instance where a port
/// is bound at some of its bits alone.
pub(crate) fn bind_all(
    alloc: Global,
    tables: &Tables,
    here: u32,
    child: u32,
    binds: &[Bind],
) -> Result<OpenBindings, ElabFault>
    requires here { IsHere tables.now here }
    requires child { IsHere tables.now child }
    ensures { Gives same result (over (bind (frames_of tables.now) (here_in tables.now here)
        (here_in tables.now child).frame) [] (map seen_bind binds.now)) }
{
    let mut bindings = OpenBindings::new(alloc);
    for binding in binds {
        bindings = bind(alloc, tables, here, child, bindings, binding)?;
    }
    Ok(bindings)
}
