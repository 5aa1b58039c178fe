// The text of a whole procedure.
ghost use Rattle.net_graph.specs.Devices.{IsDevice};

use crate::chip::{Chip, power_up, reset};
use crate::how::How;
use crate::needs::{do_writes, needs_of};
use crate::segments::Segments;
use crate::stop::PlanStop;
use crate::stretch::{Round, Stretch};
use ij_bits::{Bits, List, OutOfMemory};
use ij_io::SureSink;
use merge_order::{BitSteps, next_step};
use net_graph::{BitStep, Device, Group, Net};
use net_tree::Tree;
use std::alloc::Global;
use std::mem;
use svf_writer::{put_preface, put_reset};

/// At most this many bit steps are planned.
const MOST_STEPS: u32 = 1000000;

/// A plan under way.
#[derive(Drop)]
struct Planner<'a> {
    alloc: Global,
    net: &'a Net,
    how: How,
    all: Segments,
    /// The data bits after the rounds so far.
    meant: Vec<Bits>,
    /// The work since the last reset.
    stretch: Stretch,
    /// The registers as the text so far leaves them.
    chip: Chip,
    text: SureSink,
    applies: u32,
}

impl<'a> Planner<'a> {
    /// A plan of nothing.
    fn new(alloc: Global, net: &'a Net, tree: &Tree, how: How) -> Result<Planner<'a>, PlanStop> {
        let all = Segments::of(alloc, net, tree)?;
        let stretch = Stretch::new(alloc, &all)?;
        let mut chip = Chip::new(alloc, net, &all)?;
        chip.reset_rows(&all)?;
        Ok(Planner {
            alloc,
            net,
            how,
            all,
            meant: power_up(alloc, net)?,
            stretch,
            chip,
            text: SureSink::new(alloc),
            applies: 0,
        })
    }

    /// Adds the rounds of an iApply.
    fn add_apply(&mut self, rounds: List<Group>) -> Result<(), PlanStop> {
        self.applies = self.applies.checked_add(1).ok_or(PlanStop::NoPlan)?;
        let mut number: u32 = 0;
        for group in rounds.into_vec() {
            number = number.checked_add(1).ok_or(PlanStop::NoPlan)?;
            let needs = needs_of(self.alloc, &self.all.of_reg, &group, &self.meant, self.how)?;
            do_writes(&mut self.meant, &group)?;
            let round = Round {
                apply: self.applies,
                round: number,
                group,
            };
            self.stretch.add_round(&self.all, round, needs)?;
        }
        Ok(())
    }

    /// Writes the text of the work since the last reset.
    fn put_work_since_reset(&mut self) -> Result<(), PlanStop> {
        if self.stretch.items.is_empty() {
            return Ok(());
        }
        let empty = Stretch::new(self.alloc, &self.all)?;
        let mut stretch = mem::replace(&mut self.stretch, empty);
        stretch.settle(&self.all)?;
        stretch.put_text(self.net, &self.all, &mut self.chip, &mut self.text)
    }

    /// Adds a reset.
    fn add_reset(&mut self, device: &Device) -> Result<(), PlanStop>
        requires { IsDevice device.now }
    {
        self.put_work_since_reset()?;
        put_reset(device, &mut self.text)?;
        reset(self.net, &mut self.meant)?;
        self.chip.reset(self.net, &self.all)
    }

    /// Adds a bit step.
    fn add_step(&mut self, device: &Device, step: BitStep) -> Result<(), PlanStop>
        requires { IsDevice device.now }
    {
        match step {
            BitStep::Apply(rounds) => self.add_apply(rounds),
            BitStep::Run(cycles) => self.stretch.add_run(cycles),
            BitStep::Reset => self.add_reset(device),
        }
    }
}

/// The text of the bit steps that are left.
fn planned<'b>(
    alloc: Global,
    net: &Net,
    tree: &Tree,
    device: &Device,
    steps: &mut BitSteps<'b>,
    how: How,
) -> Result<SureSink, PlanStop>
    requires { IsDevice device.now }
{
    let mut planner = Planner::new(alloc, net, tree, how)?;
    put_preface(device, &mut planner.text)?;
    for _ in 0..MOST_STEPS {
        let Some(step) = next_step(steps)? else {
            planner.put_work_since_reset()?;
            return Ok(planner.text);
        };
        planner.add_step(device, step)?;
    }
    Err(PlanStop::NoPlan)
}

/// The SVF text of a procedure's bit steps, planned as a whole for the fewest clocks; `None` where there is
/// no such plan (IEEE 1687-2014, PDL level 0; Serial Vector Format, revision E). All bit steps are taken.
///
/// Nothing is promised of the text: have it audited before it is used.
///
/// # Errors
///
/// [`OutOfMemory`] where there was no memory for the plan or its text, or where a bit step is refused.
pub fn tight_text<'b>(
    alloc: Global,
    net: &Net,
    tree: &Tree,
    device: &Device,
    steps: &mut BitSteps<'b>,
    how: How,
) -> Result<Option<SureSink>, OutOfMemory>
    requires device { IsDevice device.now }
{
    match planned(alloc, net, tree, device, steps, how) {
        Ok(text) => Ok(Some(text)),
        Err(PlanStop::NoPlan) => Ok(None),
        Err(PlanStop::NoMemory) => Err(OutOfMemory),
    }
}
