// What holds of all tables.
ghost use Rattle.table_file.specs.Formed.{TablesAreModels};

/// Each table that a text has says a well formed model (`IsModel`, `specs/Models.antt` of `instruments`):
/// what isn't refused keeps every limit, names what is there, and has numbers that fit.
pub fn tables_are_models()
    ensures { TablesAreModels }
{}
