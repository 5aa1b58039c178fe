// What the variables are at one clock.
ghost use Rattle.std.specs.Prelude.{◌≡◌, ◌<◌, ◌≤◌, ◌++◌, false, length, map, OnOk};
ghost use Rattle.bench_report.specs.Report.{chip_of};
ghost use Rattle.instruments.specs.OnNetwork.{outputs};
ghost use Rattle.instruments.specs.Seen.{seen_model};
ghost use Rattle.net_wave.specs.Changes.{is_shift, shown_at};
ghost use Rattle.net_wave.specs.Left.{IsScene};
ghost use Rattle.net_wave.specs.Values as values;
ghost use Rattle.net_wave.specs.Vars as vars;

use crate::digits::{
    add_bits, add_digit, add_number, add_unknown, differs, expect_digit, tap_code,
};
use crate::shapes::{input_at, output_at, row_width, word_at};
use crate::shown::Shown;
use crate::var::Var;
use ij_bits::{List, OutOfMemory};
use instruments::Model;
use net_bench::Bench;
use net_graph::{Holds, Net, Sig, is_in, row_of};
use tap_machine::Pins;

/// A bench at a clock that begins with some pins, and its shift stages if they are to be shown.
#[derive(Drop)]
pub(crate) struct Scene<'s, 'a> {
    pub net: &'s Net,
    pub models: &'s List<Model>,
    pub bench: &'s Bench<'a>,
    pub stages: &'s Holds,
    pub shifts: bool,
    pub pins: Pins,
}

/// What a clock of a bench with some pins shows at the pins.
pub(crate) fn shown(bench: &Bench, pins: Pins) -> Shown
    ensures { result ≡ shown_at (chip_of bench.now) pins bench.now.state }
{
    Shown {
        pins,
        tdo: bench.tdo(),
        tap: bench.tap(),
    }
}

/// Adds the digits of a row.
fn add_row(width: u32, row: Option<u32>, into: &mut List<u8>) -> Result<(), OutOfMemory>
    requires { width ≤ 64 }
    ensures { OnOk result (into.new.items ≡ into.old.items ++ values.row_digits width row) }
{
    match row {
        None => add_unknown(width, into),
        Some(row) => add_number(u64::from(row), width, into),
    }
}

impl<'s, 'a> Scene<'s, 'a> {
    /// Adds the digits of an input of an instrument.
    fn add_input(&self, inst: u32, port: u32, into: &mut List<u8>) -> Result<(), OutOfMemory>
        requires scene { IsScene self.now }
        requires there { vars.IsVar self.now.net.now
            (map seen_model self.now.models.now.items) (Var.Input inst port) }
        ensures { OnOk result (into.new.items ≡ into.old.items
            ++ values.value (chip_of self.now.bench.now) (map seen_model self.now.models.now.items)
            (Var.Input inst port) self.now.pins self.now.bench.now.state) }
    {
        let _holds = self.bench.holds();
        let bits = input_at(self.net, inst, port).bits.as_slice();
        for j in 0..bits.len() {
            add_digit(self.bench.signal(bits[bits.len() - 1 - j]), into)?;
        }
        Ok(())
    }

    /// An output bit of an instrument.
    fn output_bit(&self, inst: u32, port: u32, pos: u32) -> bool
        ensures { result
            ≡ outputs (chip_of self.now.bench.now).machines self.now.bench.now.state.insts inst port pos }
    {
        self.bench.signal(Sig::Out {
            inst,
            port,
            pos,
            inverted: false,
        })
    }

    /// Adds the digits of an output of an instrument.
    fn add_output(&self, inst: u32, port: u32, into: &mut List<u8>) -> Result<(), OutOfMemory>
        requires scene { IsScene self.now }
        requires there { vars.IsVar self.now.net.now
            (map seen_model self.now.models.now.items) (Var.Output inst port) }
        ensures { OnOk result (into.new.items ≡ into.old.items
            ++ values.value (chip_of self.now.bench.now) (map seen_model self.now.models.now.items)
            (Var.Output inst port) self.now.pins self.now.bench.now.state) }
    {
        let width = output_at(self.net, inst, port).width;
        for j in 0..width {
            add_digit(self.output_bit(inst, port, width - 1 - j), into)?;
        }
        Ok(())
    }

    /// Adds the digits of a word of an instrument.
    fn add_word(&self, inst: u32, word: u32, into: &mut List<u8>) -> Result<(), OutOfMemory>
        requires scene { IsScene self.now }
        requires there { vars.IsVar self.now.net.now
            (map seen_model self.now.models.now.items) (Var.Word inst word) }
        ensures { OnOk result (into.new.items ≡ into.old.items
            ++ values.value (chip_of self.now.bench.now) (map seen_model self.now.models.now.items)
            (Var.Word inst word) self.now.pins self.now.bench.now.state) }
    {
        let _count = self.bench.instruments();
        let width = word_at(self.models, inst, word).width;
        add_number(self.bench.word(inst, word), width, into)
    }

    /// Adds the digits of a multiplexer's row.
    fn add_mux_row(&self, mux: u32, into: &mut List<u8>) -> Result<(), OutOfMemory>
        requires scene { IsScene self.now }
        requires there { mux < length self.now.net.now.muxes.items }
        ensures { OnOk result (into.new.items ≡ into.old.items ++ values.value (chip_of self.now.bench.now)
            (map seen_model self.now.models.now.items) (Var.Row mux) self.now.pins self.now.bench.now.state) }
    {
        let row = row_of(self.net, self.bench.holds(), mux);
        add_row(row_width(self.net, mux), row, into)
    }

    /// Adds the digits of a variable.
    pub(crate) fn add_value(&self, var: Var, into: &mut List<u8>) -> Result<(), OutOfMemory>
        requires scene { IsScene self.now }
        requires there { vars.IsVar self.now.net.now (map seen_model self.now.models.now.items) var }
        requires kept { self.now.shifts ≡ false → is_shift var ≡ false }
        ensures { OnOk result (into.new.items ≡ into.old.items ++ values.value (chip_of self.now.bench.now)
            (map seen_model self.now.models.now.items) var self.now.pins self.now.bench.now.state) }
    {
        match var {
            Var::Tms => add_digit(self.pins.tms, into),
            Var::Tdi => add_digit(self.pins.tdi, into),
            Var::Tdo => add_digit(self.bench.tdo(), into),
            Var::Expect => into.push(expect_digit(self.pins.expect)),
            Var::Differs => add_digit(differs(self.pins.expect, self.bench.tdo()), into),
            Var::Tap => add_number(tap_code(self.bench.tap()), 4, into),
            Var::Instruction => add_bits(self.bench.instruction(), into),
            Var::Scan => add_number(u64::from(self.pins.scan), 32, into),
            Var::Bit => add_number(u64::from(self.pins.bit), 16, into),
            Var::Update(reg) => add_bits(self.bench.holds().register(reg), into),
            Var::Shift(reg) => add_bits(self.stages.register(reg), into),
            Var::OnPath(reg) => add_digit(is_in(self.bench.path(), reg), into),
            Var::Row(mux) => self.add_mux_row(mux, into),
            Var::Input(inst, port) => self.add_input(inst, port, into),
            Var::Output(inst, port) => self.add_output(inst, port, into),
            Var::Word(inst, word) => self.add_word(inst, word, into),
        }
    }
}
