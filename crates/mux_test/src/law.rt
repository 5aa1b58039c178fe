// What the test finds.
ghost use Rattle.mux_test.specs.Laws.{RowsAreReached, StuckAreFound, TestsAreQuiet};
ghost use Rattle.mux_test.specs.Reading.{TestsAreReadAgain};
ghost use Rattle.mux_test.specs.Texts.{ScansMakeTheText};

/// The law of mux tests: it carries no code, its clauses say what is proved of the definitions.
///
/// On a network with its nested form and lawful selects, whatever its instruments do:
///
/// - `quiet`: played from power-up on a bench without faults, no compare of the test differs, no instrument
///   has an event, and each bit that selects nothing is at the end as at power-up.
/// - `found`: where a mux always passes on the same row, and the test sees it, some compare of the play
///   differs.
/// - `reached`: each row has at most as many scans as its mux is deep, and two more; before the last of them
///   the mux is on the active path and in the row, and that scan changes nothing.
/// - `text`: the texts of the scans, each row's after a comment, make the text of the test.
/// - `read_again`: in the text of a test that isn't too long, a reader of SVF finds exactly its commands.
pub fn mux_tests_law()
    ensures quiet { TestsAreQuiet }
    ensures found { StuckAreFound }
    ensures reached { RowsAreReached }
    ensures text { ScansMakeTheText }
    ensures read_again { TestsAreReadAgain }
{}
