// What holds of all texts with notes.
ghost use Rattle.svf_notes.specs.Explained.{ExplainedIsSame, SameCommands};
ghost use Rattle.svf_notes.specs.Noted.{NotesFollowTheirScans, ScansBegin};
ghost use Rattle.svf_notes.specs.Laws.{ReadScansAreNumbered, ReadScansHaveBits, ScansAreNumbered};
ghost use Rattle.svf_notes.specs.Laws.{ScansCompare, ScansKeepTheirPath};

use svf_reader::{read_commands_are_within_limits, read_commands_fit};

/// Notes change no command: whatever they are, as long as none of their lines has a line feed, an SVF text
/// has the same commands with them as without them (Serial Vector Format, revision E: comments).
pub fn commands_stay()
    ensures { SameCommands }
{}

/// A text that is explained has the commands that it had: names in a network have no line feed, so no note
/// ends early.
pub fn explained_commands_stay()
    ensures { ExplainedIsSame }
{}

/// What a play compares is what is at the bits of its scans: the k-th bit of a scan is the compare at
/// position k of the scan of this number, if there is one (Serial Vector Format, revision E: TDO, MASK).
pub fn scans_compare()
    ensures { ScansCompare }
{}

/// A scan has the number and the bits of its command, and goes through the path, and is selected by the
/// instruction, that hold when its command begins: nothing is updated before its last bit is shifted (IEEE
/// 1149.1-2013, clause 6).
pub fn scans_keep_their_path()
    ensures { ScansKeepTheirPath }
{}

/// A play has one scan for each SIR and SDR, in their order, and numbers them from 1: so the k-th note of a
/// text is that of its k-th scan (Serial Vector Format, revision E: SIR, SDR).
pub fn scans_are_numbered()
    ensures { ScansAreNumbered }
{}

/// In the commands that are read of any text each scan has at least one bit: its own, or those of the last
/// scan of its kind (Serial Vector Format, revision E: SIR, SDR, TDI).
pub fn read_scans_have_bits()
    ensures { ReadScansHaveBits }
{
    read_commands_fit();
}

/// A play of any text that is read has one scan for each SIR and SDR in it, in their order, and numbers them
/// from 1 (Serial Vector Format, revision E: SIR, SDR).
pub fn read_scans_are_numbered()
    ensures { ReadScansAreNumbered }
{
    read_scans_have_bits();
    scans_are_numbered();
}

/// The k-th scan of a play of any text that is read has the number k, begins in the state that the commands
/// before it leave, so with their path and instruction, and has the bits of its command: those at TDI, and of
/// TDO those under MASK (Serial Vector Format, revision E: SIR, SDR, TDI, TDO, MASK; IEEE 1687-2014: active
/// scan path).
pub fn scans_begin()
    ensures { ScansBegin }
{
    read_commands_fit();
}

/// A text that is read and explained is the old text, byte for byte, with a note after the `;` of each scan,
/// where a reader of SVF has read exactly the commands up to this scan. A reader of notes, which shares no
/// word with what writes them, finds there the number of the scan and, if it goes through the network and is
/// as long as its path, each register of the active path: its name and positions, and of the bits of the scan
/// at these positions those that are written, expected and found (Serial Vector Format, revision E: comments,
/// SIR, SDR).
pub fn notes_follow_their_scans()
    ensures { NotesFollowTheirScans }
{
    read_commands_fit();
    read_scans_are_numbered();
    read_commands_are_within_limits();
}
