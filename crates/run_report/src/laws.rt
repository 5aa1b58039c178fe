// What follows for the places of reads.
ghost use Rattle.run_report.specs.Laws.{PlacesAreOne};

/// The places of a procedure's reads: bit steps have one place for each read, whatever plans were found.
pub fn places_are_one()
    ensures one { PlacesAreOne }
{}
