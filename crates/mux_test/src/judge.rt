// Which rows a mux may be stuck in unseen, scan by scan.
ghost use Rattle.std.specs.Prelude.{◌≡◌, ◌<◌, ◌≤◌, length, map, All, Contains, IfOk, IsFalse, IsSome, IsTrue};
ghost use Rattle.std.specs.Prelude.{OnOk};
ghost use Rattle.std.specs.Str.{bytes_eq as same_registers};
ghost use Rattle.net_graph.specs.Chain.{chain, IsRoute, NotIn};
ghost use Rattle.net_graph.specs.declared.net.Net.{Net as ANet};
ghost use Rattle.net_graph.specs.Held.{AreHolds};
ghost use Rattle.net_graph.specs.MuxesMet.{active_muxes};
ghost use Rattle.net_graph.specs.Nets.{IsNet};
ghost use Rattle.net_graph.specs.Path.{active, route_of};
ghost use Rattle.net_graph.specs.Resets.{start_holds};
ghost use Rattle.net_graph.specs.Signals.{Holds as SeenHolds};
ghost use Rattle.net_graph.specs.Stuck as stuck;
ghost use Rattle.path_planner.specs.Planning.{IsBranchOf};
ghost use Rattle.path_planner.specs.Rows.{all_in};
ghost use Rattle.path_planner.specs.Scannable.{IsScannable};
ghost use Rattle.mux_test.specs.Judged as judged;
ghost use Rattle.mux_test.specs.Judging.{HasJudgeRoom, IsReady};
ghost use Rattle.mux_test.specs.Laws.{IsTestable};
ghost use Rattle.mux_test.specs.Planned.{AreFlushable, holds_after, seen_planned};
ghost use Rattle.mux_test.specs.Seen.{begins};
ghost use Rattle.mux_test.specs.KnownRows.{AreKnown};

use crate::detour::Detour;
use crate::known::KnownRows;
use crate::planned::PlannedScan;
use crate::stuck::{find_path, is_passed};
use ij_bits::{Buffer, List, OutOfMemory};
use net_graph::{Branch, Holds, Net};
use net_tree::Tree;
use path_planner::take_plan_writes;
use std::alloc::Global;

/// What the scans so far say of a mux that is stuck in a row.
#[derive(Clone, Copy, Drop)]
pub(crate) enum Verdict {
    /// Each went through the path that it goes through without it.
    Open,
    /// The first other path had another number of bits.
    Seen,
    /// It had as many.
    Unseen,
}

/// A row that a mux may be stuck in.
#[derive(Clone, Copy, Drop)]
pub(crate) struct RowVerdict {
    /// The row.
    pub branch: Branch,
    /// What is known of it.
    pub verdict: Verdict,
}

/// What is known at the beginning of a scan, in room that is made once.
#[derive(Drop)]
pub(crate) struct Judge {
    /// The row that each mux is in then.
    pub known: KnownRows,
    /// What is traced from a mux on.
    pub detour: Detour,
}

/// Whether two paths have the same registers. Takes no memory.
fn same_path(a: &[u32], b: &[u32]) -> bool
    ensures { result ≡ same_registers a.now b.now }
{
    a == b
}

/// What two paths say of a row. Takes no memory.
fn verdict_of(holds: &Holds, own: &[u32], other: &[u32]) -> Verdict
    requires own { IsRoute (length holds.now) own.now }
    requires other { IsRoute (length holds.now) other.now }
    requires few_own { length (chain own.now holds.now) ≤ 4096 }
    requires few_other { length (chain other.now holds.now) ≤ 4096 }
    ensures { result ≡ judged.verdict_of holds.now own.now other.now }
{
    if same_path(own, other) {
        Verdict::Open
    } else if holds.path_bits(own) == holds.path_bits(other) {
        Verdict::Unseen
    } else {
        Verdict::Seen
    }
}

/// Whether no scan has told a row yet. Takes no memory.
fn is_row_untold(row: RowVerdict) -> bool
    ensures { IsFalse result → (net : ANet) (holds : SeenHolds) → judged.judged_row net holds row ≡ row }
{
    matches!(row.verdict, Verdict::Open)
}

/// Whether each of some muxes is in its row. Takes no memory.
fn are_in_rows(net: &Net, holds: &Holds, known: &KnownRows, place: &[Branch]) -> bool
    requires known { AreKnown net.now holds.now known.now }
    requires place { All (IsBranchOf net.now) place.now }
    ensures { result ≡ all_in net.now place.now holds.now }
{
    for row in place {
        if known.row_of(net, holds, row.mux) != Some(row.row) {
            return false;
        }
    }
    true
}

/// Whether the active path goes through a mux: each mux around it is in the row that it is in. Takes no
/// memory.
fn is_on_path(net: &Net, tree: &Tree, holds: &Holds, known: &KnownRows, mux: u32) -> bool
    requires testable { IsTestable net.now tree.now }
    requires scannable { IsScannable net.now holds.now }
    requires known { AreKnown net.now holds.now known.now }
    requires mux { mux < length net.now.muxes.items }
    ensures met { IsTrue result → Contains (active_muxes net.now holds.now) mux }
    ensures unmet { IsFalse result → NotIn mux (active_muxes net.now holds.now) }
{
    let place = tree.place_of_mux(mux);
    are_in_rows(net, holds, known, place.as_slice())
}

impl Judge {
    /// Room for what is known of a network.
    fn new(alloc: Global, net: &Net) -> Result<Judge, OutOfMemory>
        requires { IsNet net.now }
        ensures { IfOk result (HasJudgeRoom net.now) }
    {
        Ok(Judge {
            known: KnownRows::new(alloc, net)?,
            detour: Detour::new(alloc, net)?,
        })
    }

    /// What the whole paths say of a row. Takes no memory.
    fn whole_verdict(&mut self, net: &Net, holds: &Holds, row: Branch) -> Verdict
        requires well_formed { IsNet net.now }
        requires holds { AreHolds net.now holds.now }
        requires row { IsBranchOf net.now row }
        requires ready { IsReady net.now holds.now self.old }
        ensures verdict { result ≡ judged.verdict_of holds.now (route_of net.now holds.now)
            (stuck.stuck_route net.now row holds.now) }
        ensures ready { IsReady net.now holds.now self.new }
    {
        self.detour.forget();
        find_path(net, None, holds, &self.known, &mut self.detour.own);
        find_path(net, Some(row), holds, &self.known, &mut self.detour.other);
        verdict_of(
            holds,
            self.detour.own.as_slice(),
            self.detour.other.as_slice(),
        )
    }

    /// The same for a mux that the active path goes through, by the parts of the paths that differ where they
    /// join again. Takes no memory.
    fn verdict_at_join(&mut self, net: &Net, tree: &Tree, holds: &Holds, row: Branch) -> Verdict
        requires well_formed { IsNet net.now }
        requires holds { AreHolds net.now holds.now }
        requires row { IsBranchOf net.now row }
        requires met { Contains (active_muxes net.now holds.now) row.mux }
        requires path { IsSome (active net.now holds.now) }
        requires ready { IsReady net.now holds.now self.old }
        ensures verdict { result ≡ judged.verdict_of holds.now (route_of net.now holds.now)
            (stuck.stuck_route net.now row holds.now) }
        ensures ready { IsReady net.now holds.now self.new }
    {
        if self.detour.find(net, tree, holds, &self.known, row) {
            verdict_of(
                holds,
                self.detour.own.as_slice(),
                self.detour.other.as_slice(),
            )
        } else {
            self.whole_verdict(net, holds, row)
        }
    }

    /// What a scan says of a row that no scan has told yet. A mux that the path doesn't go through, or that
    /// passes on the same in this row, changes no path. Takes no memory.
    fn verdict(&mut self, net: &Net, tree: &Tree, holds: &Holds, row: Branch) -> Verdict
        requires testable { IsTestable net.now tree.now }
        requires scannable { IsScannable net.now holds.now }
        requires row { IsBranchOf net.now row }
        requires ready { IsReady net.now holds.now self.old }
        ensures verdict { result ≡ judged.verdict_of holds.now (route_of net.now holds.now)
            (stuck.stuck_route net.now row holds.now) }
        ensures ready { IsReady net.now holds.now self.new }
    {
        if is_passed(net, holds, &self.known, row) {
            return Verdict::Open;
        }
        if !is_on_path(net, tree, holds, &self.known, row.mux) {
            return Verdict::Open;
        }
        self.verdict_at_join(net, tree, holds, row)
    }

    /// Judges a row. Takes no memory.
    fn judge(&mut self, net: &Net, tree: &Tree, holds: &Holds, row: RowVerdict) -> RowVerdict
        requires testable { IsTestable net.now tree.now }
        requires scannable { IsScannable net.now holds.now }
        requires row { IsBranchOf net.now row.branch }
        requires ready { IsReady net.now holds.now self.old }
        ensures row { result ≡ judged.judged_row net.now holds.now row }
        ensures ready { IsReady net.now holds.now self.new }
    {
        match row.verdict {
            Verdict::Open => RowVerdict {
                branch: row.branch,
                verdict: self.verdict(net, tree, holds, row.branch),
            },
            Verdict::Seen | Verdict::Unseen => row,
        }
    }

    /// Judges the row at an index in its place, where it is open. Takes no memory.
    fn judge_at(
        &mut self,
        net: &Net,
        tree: &Tree,
        holds: &Holds,
        rows: &mut List<RowVerdict>,
        i: usize,
    )
        requires testable { IsTestable net.now tree.now }
        requires scannable { IsScannable net.now holds.now }
        requires rows { All (λ r. IsBranchOf net.now r.branch) rows.old.items }
        requires there { i < length rows.old.items }
        requires ready { IsReady net.now holds.now self.old }
        ensures rows { rows.new.items ≡ judged.judged_at net.now holds.now i rows.old.items }
        ensures ready { IsReady net.now holds.now self.new }
    {
        let row = *rows.get(i);
        if !is_row_untold(row) {
            return;
        }
        rows.set(i, self.judge(net, tree, holds, row));
    }

    /// Judges all rows at the beginning of a scan. Takes no memory.
    fn judge_rows(&mut self, net: &Net, tree: &Tree, holds: &Holds, rows: &mut List<RowVerdict>)
        requires testable { IsTestable net.now tree.now }
        requires scannable { IsScannable net.now holds.now }
        requires rows { All (λ r. IsBranchOf net.now r.branch) rows.old.items }
        requires room { HasJudgeRoom net.now self.old }
        ensures rows { rows.new.items ≡ map (judged.judged_row net.now holds.now) rows.old.items }
        ensures room { HasJudgeRoom net.now self.new }
    {
        self.known.note(net, holds);
        self.detour.forget();
        for i in 0..rows.len() {
            self.judge_at(net, tree, holds, rows, i);
        }
    }

    /// The same where the scan before changed something; else they are judged so already. Takes no memory.
    fn judge_changed(
        &mut self,
        net: &Net,
        tree: &Tree,
        holds: &Holds,
        changed: bool,
        rows: &mut List<RowVerdict>,
    )
        requires testable { IsTestable net.now tree.now }
        requires scannable { IsScannable net.now holds.now }
        requires rows { All (λ r. IsBranchOf net.now r.branch) rows.old.items }
        requires room { HasJudgeRoom net.now self.old }
        requires alike { IsFalse changed
            → map (judged.judged_row net.now holds.now) rows.old.items ≡ rows.old.items }
        ensures rows { rows.new.items ≡ map (judged.judged_row net.now holds.now) rows.old.items }
        ensures room { HasJudgeRoom net.now self.new }
    {
        if changed {
            self.judge_rows(net, tree, holds, rows);
        }
    }
}

/// Judges rows at the beginning of each scan of a test. A scan that changes nothing isn't told from the next
/// one: they begin alike.
fn judge_scans(
    alloc: Global,
    net: &Net,
    tree: &Tree,
    scans: &[PlannedScan],
    rows: &mut List<RowVerdict>,
) -> Result<(), OutOfMemory>
    requires testable { IsTestable net.now tree.now }
    requires scans { AreFlushable net.now (start_holds net.now) (map seen_planned scans.now) }
    requires rows { All (λ r. IsBranchOf net.now r.branch) rows.old.items }
    ensures { OnOk result (rows.new.items ≡ judged.judged_rows net.now (begins (start_holds net.now)
        (holds_after (start_holds net.now) (map seen_planned scans.now))) rows.old.items) }
{
    let mut holds = Holds::power_up(alloc, net)?;
    let mut judge = Judge::new(alloc, net)?;
    let mut changed = true;
    for scan in scans {
        judge.judge_changed(net, tree, &holds, changed, rows);
        changed = !scan.plan.writes.is_empty();
        take_plan_writes(&mut holds, &scan.plan);
    }
    Ok(())
}

/// Rows that no scan was judged for.
fn open_rows(alloc: Global, branches: &[Branch]) -> Result<List<RowVerdict>, OutOfMemory>
    ensures { IfOk result (λ rows. rows.items ≡ map judged.open_row branches.now) }
{
    let mut rows = Buffer::new(alloc);
    rows.reserve(branches.len())?;
    for branch in branches {
        rows.push_reserved(RowVerdict {
            branch: *branch,
            verdict: Verdict::Open,
        });
    }
    Ok(rows.into_list())
}

/// The rows that no scan has told, in their order.
fn untold_rows(alloc: Global, rows: &[RowVerdict]) -> Result<List<Branch>, OutOfMemory>
    ensures { IfOk result (λ untold. untold.items ≡ judged.untold_rows rows.now) }
{
    let mut untold = List::new(alloc);
    for row in rows {
        if !matches!(row.verdict, Verdict::Seen) {
            untold.push(row.branch)?;
        }
    }
    Ok(untold)
}

/// Of these rows those that a mux may be stuck in unseen by the scans of a test.
pub(crate) fn unseen_rows(
    alloc: Global,
    net: &Net,
    tree: &Tree,
    branches: &[Branch],
    scans: &[PlannedScan],
) -> Result<List<Branch>, OutOfMemory>
    requires testable { IsTestable net.now tree.now }
    requires branches { All (IsBranchOf net.now) branches.now }
    requires scans { AreFlushable net.now (start_holds net.now) (map seen_planned scans.now) }
    ensures { IfOk result (λ unseen. unseen.items ≡ judged.unseen_rows net.now branches.now
        (begins (start_holds net.now) (holds_after (start_holds net.now) (map seen_planned scans.now)))) }
{
    let mut rows = open_rows(alloc, branches)?;
    judge_scans(alloc, net, tree, scans, &mut rows)?;
    untold_rows(alloc, rows.as_slice())
}
