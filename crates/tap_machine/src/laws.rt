// What holds of all plays.
ghost use Rattle.tap_machine.specs.Clocks.{PinsAreClocks};

/// A play of commands that fit, from a state of rest, has as many pins as its commands have clocks: of a scan
/// its bits and five more, for SIR six more, of `STATE RESET` five, of a run its cycles, and one more where a
/// command other than it is met in Test-Logic-Reset (Serial Vector Format, revision E).
pub fn pins_are_clocks()
    ensures { PinsAreClocks }
{}
