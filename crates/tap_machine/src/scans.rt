// How many scans commands have.
ghost use Rattle.std.specs.Prelude.{◌≡◌, ◌≤◌, [], ◌∷◌};
ghost use Rattle.svf_writer.specs.SeenCommands.{seen_command};
ghost use Rattle.tap_machine.specs.Play.{scans_in};

use svf_writer::{Command, Commands};

/// The number of scans that a command is, 1 or 0.
pub fn scans_of(command: &Command) -> u32
    ensures { result ≡ scans_in (seen_command command.now ∷ []) }
{
    match command {
        Command::Sir(_) => 1,
        Command::Sdr(_) => 1,
        Command::Reset => 0,
        Command::Idle => 0,
        Command::Run(_) => 0,
    }
}

/// The number of scans among commands.
pub fn scan_count(commands: &Commands) -> u32
    requires { scans_in commands.now ≤ 1000000000 }
    ensures { result ≡ scans_in commands.now }
{
    let mut scans = 0u32;
    for i in 0..commands.len() {
        scans += scans_of(commands.get(i));
    }
    scans
}
