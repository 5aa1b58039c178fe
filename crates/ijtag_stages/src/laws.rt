// What follows from what the stages give and refuse.
ghost use Rattle.ijtag_stages.specs.Laws.{StagesAreDecided, StagesAreTotal, ReadCommandsArePlayable};

use icl_lexer::{texts_are_cut_or_at_fault, tokenization_is_unique};
use icl_parser::{designs_are_one, refusals_are_one};
use nest_check::one_form_law;
use pdl_parser::procedures_are_one;

/// Each stage comes to one end at most: what it gives is one value, where it gives something, it meets no
/// refusal, and the refusal that it meets is one.
pub fn stages_are_decided()
    ensures { StagesAreDecided }
{
    tokenization_is_unique();
    texts_are_cut_or_at_fault();
    designs_are_one();
    refusals_are_one();
    one_form_law();
    procedures_are_one();
    pdl_parser::refusals_are_one();
}

/// Each stage comes to an end: it can't be that it gives nothing and refuses nothing.
pub fn stages_are_total()
    ensures { StagesAreTotal }
{}

/// The commands that are read of an SVF text take at most 1,000,000,000 clocks and have at most as many
/// scans, so they can be played (Serial Vector Format, revision E).
pub fn read_commands_are_playable()
    ensures { ReadCommandsArePlayable }
{}
