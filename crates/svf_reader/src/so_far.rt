// What is kept from command to command.

/// What the commands so far leave for the next ones.
#[derive(Clone, Copy)]
pub(crate) struct ReadSoFar {
    /// The length of the last SIR.
    pub ir: Option<u32>,
    /// The length of the last SDR.
    pub dr: Option<u32>,
    /// Whether the controller rests in Test-Logic-Reset, and otherwise in Run-Test/Idle.
    pub in_reset: bool,
    /// The clocks of TCK so far.
    pub clocks: u32,
}
