// What holds of all tables that fit.
ghost use Rattle.bench_file.specs.Fits.{FittedModelsFit, RowsSayTheSame};

/// Tables that fit a network, each with a well formed model, give models that fit: one for each instrument,
/// well formed, and with the ports of the instrument in the network's order (IEEE 1687-2014, ICL: Instance,
/// DataInPort, DataOutPort).
pub fn fitted_models_fit()
    ensures { FittedModelsFit }
{}

/// A table may name the inputs of its instrument in any order. A row of the model that the instrument gets
/// from it says the same as the row of the table, word for word: each operand has its name still, and each
/// condition compares as many bits.
pub fn rows_say_the_same()
    ensures { RowsSayTheSame }
{}
