// What is written is read again.
ghost use Rattle.table_writer.specs.Again.{AreReadAgain, AreWrittenBack};

/// Tables with good names that are well formed, one for each path, are read again from the text that is
/// written of them, with other places; so are the tables that a text says.
pub fn tables_are_read_again()
    ensures again { AreReadAgain }
    ensures back { AreWrittenBack }
{}
