// What there is in a wave.
ghost use Rattle.std.specs.Prelude.{◌≡◌};
ghost use Rattle.net_wave.specs.Header as header;

/// Which variables a wave has.
#[derive(Clone, Copy, PartialEq, Eq, Debug)]
pub enum WaveKind {
    /// Pins, compares, the state of the TAP controller, the instruction, and the scan and bit that are
    /// shifted.
    Pins,
    /// These, and of each register its update stage and whether it is on the active scan path, of each scan
    /// multiplexer its row, of each instrument its ports and words.
    State,
    /// These, and the shift stage of each register.
    All,
}

/// The clocks of a play that are written, counted from 0.
#[derive(Clone, Copy, PartialEq, Eq, Debug)]
pub struct Window {
    /// The first of them.
    pub from: u64,
    /// How many there are at most; the play may end before.
    pub count: u64,
}

/// A variable (IEEE 1364-2005, 18.2.3). TCK isn't among them: it toggles at each half clock.
#[derive(Clone, Copy, Drop)]
pub(crate) enum Var {
    /// TMS.
    Tms,
    /// TDI.
    Tdi,
    /// TDO, as it is during the clock.
    Tdo,
    /// What TDO is compared with; x where it isn't compared.
    Expect,
    /// Whether TDO is compared, and is another bit.
    Differs,
    /// The state of the TAP controller, in the code of IEEE 1149.1-2013.
    Tap,
    /// The update stage of the instruction register.
    Instruction,
    /// The scan that is shifted, counted from 1; 0 where none is.
    Scan,
    /// The position that is shifted, counted from 0; 0 where none is.
    Bit,
    /// The update stage of a register.
    Update(u32),
    /// The shift stage of a register.
    Shift(u32),
    /// Whether a register is on the active scan path.
    OnPath(u32),
    /// The row that a multiplexer is in; x where it is in none.
    Row(u32),
    /// An input of an instrument.
    Input(u32, u32),
    /// An output of an instrument.
    Output(u32, u32),
    /// A word of an instrument.
    Word(u32, u32),
}

/// A scope (IEEE 1364-2005, 18.2.3.4).
#[derive(Clone, Copy, Drop)]
pub(crate) enum Scope {
    /// A module instance, by its number in the network's nodes.
    Node(u32),
    /// A register.
    Register(u32),
    /// A multiplexer.
    Multiplexer(u32),
    /// The words of an instrument.
    Words,
}

/// One line of the declarations.
#[derive(Clone, Copy, Drop)]
pub(crate) enum Item {
    /// A scope begins.
    Open(Scope),
    /// A variable.
    Declare(Var),
    /// The innermost scope ends.
    Close,
}

/// Whether a variable is a pin, or says what is there.
pub(crate) fn is_pin(var: Var) -> bool
    ensures { result ≡ header.is_pin var }
{
    match var {
        Var::Tms => true,
        Var::Tdi => true,
        Var::Tdo => true,
        Var::Expect => true,
        Var::Differs => true,
        Var::Tap => true,
        Var::Instruction => true,
        Var::Scan => true,
        Var::Bit => true,
        _ => false,
    }
}
