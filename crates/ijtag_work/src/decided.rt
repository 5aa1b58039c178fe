// What follows from the order of work.
ghost use Rattle.ijtag_work.specs.Order.{task};
ghost use Rattle.ijtag_work.specs.Runs.{AreDecided, AreSettled, AreTotal, LoadsAreDecided, TextsAreDecided};

use headline::{planned_steps_law, procedures_are_plannable};
use ijtag_stages::{stages_are_decided, stages_are_total};
use merge_order::{bit_steps_are_few, bit_steps_are_of_the_network};
use run_report::places_are_one;

/// The work of a command on files comes to one end at most.
///
/// - `decided`: what it leaves is one, where it leaves something, it meets no refusal, and the refusal that
///   it meets is one.
/// - `settled`: so two things that it may leave differ alike, which is all that a run of a command needs of
///   its work.
pub fn works_are_decided()
    ensures decided { AreDecided task }
    ensures settled { AreSettled task }
{
    stages_are_decided();
    planned_steps_law();
    places_are_one();
}

/// The work of a command on files comes to an end: it can't be that it leaves nothing and meets no refusal.
/// So a text is accepted or refused, and a command that is accepted has something to leave.
pub fn works_are_total()
    ensures { AreTotal task }
{
    stages_are_total();
    planned_steps_law();
    bit_steps_are_of_the_network();
    procedures_are_plannable();
    bit_steps_are_few();
}

/// What comes before the work of any command that accepts texts comes to one end at most.
///
/// - `loads`: the texts that are loaded are one, or the refusal is one, and not both.
/// - `texts`: so is what they are accepted as.
pub fn texts_are_decided()
    ensures loads { LoadsAreDecided }
    ensures texts { TextsAreDecided }
{
    stages_are_decided();
    planned_steps_law();
    places_are_one();
}
