// What an audit says of a compiled text.
ghost use Rattle.ijtag_work.specs.Audited.{OwnTextsPass, WrittenTextsPass};

use headline::planned_steps_law;
use svf_audit::{audits_law, planned_steps_pass};

/// The text that a compile writes gets a yes from an audit for the same procedure.
///
/// - `files`: where the audited file holds it, the work of the audit on these files is accepted, and ends
///   without a difference.
/// - `texts`: an audit of the commands that a reader finds in it says yes.
pub fn own_texts_pass()
    ensures files { OwnTextsPass }
    ensures texts { WrittenTextsPass }
{
    planned_steps_law();
    audits_law();
    planned_steps_pass();
}
