// How a run ended.
ghost use Rattle.std.specs.Prelude.{◌≡◌, ◌≤◌, false, true};
ghost use Rattle.ijtag_work.specs.Codes.{code_of};
ghost use Rattle.ijtag_work.specs.Runs.{status_if};
ghost use Rattle.ijtag_work.specs.Seen.{differing};

/// How a run ended.
#[derive(Clone, Copy, PartialEq, Eq, Debug)]
pub enum Status {
    /// All was written, and nothing differs.
    Good,
    /// All was written, and a compare or a read differs. `compile`, `migrate` and `muxtest`, which compare
    /// nothing, never end so.
    Differs,
    /// The words are no command.
    Usage,
    /// A file, a text or a size was refused. No file was begun, but the four of a `make` whose texts are
    /// refused, which stand whole.
    Refused,
    /// A file could not be read, and no file was begun.
    ReadFault,
    /// A file or a stream could not be written.
    WriteFault,
    /// There was no memory.
    OutOfMemory,
}

impl Status {
    /// The exit status of the process, 0 to 6 in the order of the variants.
    pub fn code(self) -> u8
        ensures { result ≡ code_of self }
    {
        self as u8
    }
}

/// Whether a compared bit differs, where all was written.
#[derive(Clone, Copy)]
pub enum Verdict {
    /// None does, or none is compared.
    Agrees,
    /// One does.
    Differs,
}

impl Verdict {
    /// Whether any of some things differs, by how many do.
    pub fn of_count(differs: u64) -> Verdict
        ensures none { differs ≡ 0 → differing result ≡ false }
        ensures some { 1 ≤ differs → differing result ≡ true }
    {
        if differs == 0 {
            Verdict::Agrees
        } else {
            Verdict::Differs
        }
    }

    /// The status of a run that ends so.
    pub fn status(self) -> Status
        ensures { result ≡ status_if (differing self) }
    {
        match self {
            Verdict::Agrees => Status::Good,
            Verdict::Differs => Status::Differs,
        }
    }
}
