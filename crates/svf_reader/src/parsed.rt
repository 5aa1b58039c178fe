// What a command says.

/// The register that a scan goes through.
#[derive(Clone, Copy)]
pub(crate) enum Register {
    Instruction,
    Data,
}

/// The parts that are in a scan, each as its digits alone or as the text after its `(`.
#[derive(Clone, Copy)]
pub(crate) struct PartTexts<'a> {
    pub tdi: Option<&'a [u8]>,
    pub tdo: Option<&'a [u8]>,
    pub mask: Option<&'a [u8]>,
    pub smask: Option<&'a [u8]>,
}

/// What a command other than a scan says.
#[derive(Clone, Copy)]
pub(crate) enum Parsed {
    Reset,
    Idle,
    Run(u64),
    Nothing,
}
