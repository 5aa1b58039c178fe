// What commands take on the tester.
ghost use Rattle.std.specs.Prelude.{◌≡◌, ◌↔◌, ◌≤◌, ◌∷◌, [], length, IsTrue};
ghost use Rattle.svf_writer.specs.Clocks.{clocks_from};
ghost use Rattle.svf_writer.specs.SeenCommands.{seen_command};
ghost use Rattle.tap_machine.specs.declared.Stable.TheVariants.{Reset as InReset};
ghost use Rattle.tap_machine.specs.Play.{pins, scans_in};
ghost use Rattle.ijtag_tools.specs.Planned.{ends_in_reset, seen_cost};
ghost use Rattle.ijtag_tools.specs.Tight.{cost_of};

use svf_writer::{Command, Commands};
use tap_machine::{pins_are_clocks, scan_count};

/// What commands take on the tester, from power-up.
#[derive(Clone, Copy)]
pub struct Cost {
    /// Scans, SIR and SDR.
    pub scans: u64,
    /// Clocks of TCK.
    pub clocks: u64,
}

impl Cost {
    /// Whether it takes no more than another one, neither scans nor clocks.
    pub fn is_within(self, other: Cost) -> bool
        ensures { IsTrue result ↔ (self.scans ≤ other.scans) × (self.clocks ≤ other.clocks) }
    {
        self.scans <= other.scans && self.clocks <= other.clocks
    }
}

/// The clocks of a command, one more where Test-Logic-Reset is left (Serial Vector Format, revision E; IEEE
/// 1149.1-2013).
fn clocks_of(command: &Command, in_reset: bool) -> u64
    ensures { result ≡ clocks_from in_reset (seen_command command.now ∷ []) }
{
    let clocks = match command {
        Command::Sir(scan) => u64::from(scan.len) + 6,
        Command::Sdr(scan) => u64::from(scan.len) + 5,
        Command::Reset => return 5,
        Command::Idle => 0,
        Command::Run(clocks) => u64::from(*clocks),
    };
    if in_reset { clocks + 1 } else { clocks }
}

/// Whether a command leaves the controller in Test-Logic-Reset.
fn ends_in_reset(command: &Command) -> bool
    ensures { result ≡ ends_in_reset (seen_command command.now) }
{
    match command {
        Command::Reset => true,
        Command::Sir(_) => false,
        Command::Sdr(_) => false,
        Command::Idle => false,
        Command::Run(_) => false,
    }
}

/// Counts the clocks of a play from power-up.
fn count_clocks(commands: &Commands) -> u64
    requires { length (pins InReset 0 commands.now) ≤ 1000000000 }
    ensures { result ≡ length (pins InReset 0 commands.now) }
{
    pins_are_clocks();
    let mut in_reset = true;
    let mut clocks = 0u64;
    for i in 0..commands.len() {
        let command = commands.get(i);
        clocks += clocks_of(command, in_reset);
        in_reset = ends_in_reset(command);
    }
    clocks
}

/// What commands take. Takes no memory.
pub fn cost_of(commands: &Commands) -> Cost
    requires clocks { length (pins InReset 0 commands.now) ≤ 1000000000 }
    requires scans { scans_in commands.now ≤ 1000000000 }
    ensures { seen_cost result ≡ cost_of commands.now }
{
    Cost {
        scans: u64::from(scan_count(commands)),
        clocks: count_clocks(commands),
    }
}
