// The words that the program is called with.
ghost use Rattle.std.specs.Prelude.{◌≡◌, map, option_map};
ghost use Rattle.std.specs.String.{string_bytes};
ghost use Rattle.ijtag_work.specs.Command.{audit_of, command_in, compile_of, direct_of, make_of, migrate_of};
ghost use Rattle.ijtag_work.specs.Command.{mux_test_of, play_of, run_of};
ghost use Rattle.ijtag_work.specs.Order.{migrate};
ghost use Rattle.ijtag_work.specs.Seen.{seen_load};
ghost use Rattle.ijtag_work.specs.Words.{seen_command, seen_migrate};

use crate::inputs::{AuditWords, DirectWords, NetworkWords, PlayWords, ProcedureWords};
use crate::load::Load;
use crate::number::read_number;

/// The words of `compile ICL PDL DEVICE TOP PROC SVF`.
#[derive(Clone, Copy)]
pub struct CompileWords<'a> {
    /// The procedure.
    pub procedure: ProcedureWords<'a>,
    /// The file that is written (Serial Vector Format, revision E).
    pub svf: &'a str,
}

/// The words of `run ICL PDL DEVICE TABLES TOP PROC SVF`.
#[derive(Clone, Copy)]
pub struct RunWords<'a> {
    /// The procedure, and the tables.
    pub direct: DirectWords<'a>,
    /// The file that is written (Serial Vector Format, revision E).
    pub svf: &'a str,
}

/// The words of `make SEED SIZE STEM`.
#[derive(Clone, Copy)]
pub struct MakeWords<'a> {
    /// The number that the design is drawn from.
    pub seed: u64,
    /// How many instruments the design has.
    pub size: u64,
    /// What the names of the files begin with.
    pub stem: &'a str,
}

/// The words of `migrate TABLES NEW`.
#[derive(Clone, Copy)]
pub struct MigrateWords<'a> {
    /// The file of the instruments' tables.
    pub tables: &'a str,
    /// The file that is written.
    pub written: &'a str,
}

impl<'a> MigrateWords<'a> {
    /// The file that is loaded.
    pub fn loads(&self) -> [Load<'a>; 1]
        ensures { map seen_load result ≡ (migrate (seen_migrate self.now)).loads }
    {
        [Load::Source(self.tables)]
    }
}

/// The words of `muxtest ICL DEVICE TOP SVF`.
#[derive(Clone, Copy)]
pub struct MuxTestWords<'a> {
    /// The network.
    pub network: NetworkWords<'a>,
    /// The file that is written (Serial Vector Format, revision E).
    pub svf: &'a str,
}

/// The words of a command.
#[derive(Clone, Copy)]
pub enum CommandWords<'a> {
    Compile(CompileWords<'a>),
    Play(PlayWords<'a>),
    Direct(DirectWords<'a>),
    Run(RunWords<'a>),
    Make(MakeWords<'a>),
    Migrate(MigrateWords<'a>),
    Audit(AuditWords<'a>),
    MuxTest(MuxTestWords<'a>),
}

/// The command `compile` of the words after its name.
fn read_compile<'a>(words: &'a [String]) -> Option<CommandWords<'a>>
    ensures { option_map seen_command result ≡ compile_of (map string_bytes words.now) }
{
    let [icl, pdl, device, top, name, svf] = words else {
        return None;
    };
    Some(CommandWords::Compile(CompileWords {
        procedure: ProcedureWords {
            network: NetworkWords { icl, device, top },
            pdl,
            name,
        },
        svf,
    }))
}

/// The command `play` of the words after its name.
fn read_play<'a>(words: &'a [String]) -> Option<CommandWords<'a>>
    ensures { option_map seen_command result ≡ play_of (map string_bytes words.now) }
{
    let [svf, icl, device, tables, top] = words else {
        return None;
    };
    Some(CommandWords::Play(PlayWords {
        svf,
        network: NetworkWords { icl, device, top },
        tables,
    }))
}

/// The command `direct` of the words after its name.
fn read_direct<'a>(words: &'a [String]) -> Option<CommandWords<'a>>
    ensures { option_map seen_command result ≡ direct_of (map string_bytes words.now) }
{
    let [icl, pdl, device, tables, top, name] = words else {
        return None;
    };
    Some(CommandWords::Direct(DirectWords {
        procedure: ProcedureWords {
            network: NetworkWords { icl, device, top },
            pdl,
            name,
        },
        tables,
    }))
}

/// The command `run` of the words after its name.
fn read_run<'a>(words: &'a [String]) -> Option<CommandWords<'a>>
    ensures { option_map seen_command result ≡ run_of (map string_bytes words.now) }
{
    let [icl, pdl, device, tables, top, name, svf] = words else {
        return None;
    };
    Some(CommandWords::Run(RunWords {
        direct: DirectWords {
            procedure: ProcedureWords {
                network: NetworkWords { icl, device, top },
                pdl,
                name,
            },
            tables,
        },
        svf,
    }))
}

/// The command `make` of the words after its name.
fn read_make<'a>(words: &'a [String]) -> Option<CommandWords<'a>>
    ensures { option_map seen_command result ≡ make_of (map string_bytes words.now) }
{
    let [seed, size, stem] = words else {
        return None;
    };
    let seed = read_number(seed)?;
    let size = read_number(size)?;
    Some(CommandWords::Make(MakeWords { seed, size, stem }))
}

/// The command `migrate` of the words after its name.
fn read_migrate<'a>(words: &'a [String]) -> Option<CommandWords<'a>>
    ensures { option_map seen_command result ≡ migrate_of (map string_bytes words.now) }
{
    let [tables, written] = words else {
        return None;
    };
    Some(CommandWords::Migrate(MigrateWords { tables, written }))
}

/// The command `audit` of the words after its name.
fn read_audit<'a>(words: &'a [String]) -> Option<CommandWords<'a>>
    ensures { option_map seen_command result ≡ audit_of (map string_bytes words.now) }
{
    let [svf, icl, pdl, device, top, name] = words else {
        return None;
    };
    Some(CommandWords::Audit(AuditWords {
        svf,
        procedure: ProcedureWords {
            network: NetworkWords { icl, device, top },
            pdl,
            name,
        },
    }))
}

/// The command `muxtest` of the words after its name.
fn read_mux_test<'a>(words: &'a [String]) -> Option<CommandWords<'a>>
    ensures { option_map seen_command result ≡ mux_test_of (map string_bytes words.now) }
{
    let [icl, device, top, svf] = words else {
        return None;
    };
    Some(CommandWords::MuxTest(MuxTestWords {
        network: NetworkWords { icl, device, top },
        svf,
    }))
}

/// The command of the words, `None` where they are no command. It takes no memory.
pub fn read_words(words: &Vec<String>) -> Option<CommandWords<'_>>
    ensures { option_map seen_command result ≡ command_in words.now.items }
{
    let [name, words @ ..] = words.as_slice() else {
        return None;
    };
    let name = name.as_str();
    if name == "compile" {
        read_compile(words)
    } else if name == "play" {
        read_play(words)
    } else if name == "direct" {
        read_direct(words)
    } else if name == "run" {
        read_run(words)
    } else if name == "make" {
        read_make(words)
    } else if name == "migrate" {
        read_migrate(words)
    } else if name == "audit" {
        read_audit(words)
    } else if name == "muxtest" {
        read_mux_test(words)
    } else {
        None
    }
}
