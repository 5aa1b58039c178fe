// What holds of all waves.
ghost use Rattle.net_wave.specs.Files.{FilesAreRead};
ghost use Rattle.net_wave.specs.Laws.{CodesDiffer, DeclarationsAreRead, HalvesAreRead, MomentsAreRead};
ghost use Rattle.net_wave.specs.Laws.{MomentsReplay, ScopesAreRead, TckIsRead, WavesAreRead};
ghost use Rattle.net_wave.specs.Scopes.{ScopesArePaths};
ghost use Rattle.net_wave.specs.Whole.{VarsAreWhole};
ghost use Rattle.net_wave.specs.Widths.{WidthsAgree};

/// The changes of a wave, replayed over nothing, are what happens: after the moment at which a clock begins
/// each variable has the value of that clock (IEEE 1364-2005, 18.2: value changes).
pub fn moments_replay()
    ensures { MomentsReplay }
{}

/// A reader of value change dumps, which knows of the text alone, finds the changes of a wave in it: under
/// the code of a variable and at the time at which a clock begins, the value that the variable has then (IEEE
/// 1364-2005, 18.2: four state VCD).
pub fn moments_are_read()
    ensures { MomentsAreRead }
{}

/// It finds the same at the time at which TCK rises within the clock.
pub fn halves_are_read()
    ensures { HalvesAreRead }
{}

/// Under the code of TCK it finds 0 at the times at which clocks begin and 1 at those between.
pub fn tck_is_read()
    ensures { TckIsRead }
{}

/// The reader finds all this in the whole text of a file, whose declarations it passes over, where no name in
/// them has a line feed: those of the scopes and of the variables that are declared, and that of the top.
pub fn waves_are_read()
    ensures { WavesAreRead }
{}

/// A reader of declarations finds in this text TCK and then each variable of the wave, in their order: its
/// code, how many bits it has and its name, where no name has a line feed or a blank and 64 bits hold each
/// width (IEEE 1364-2005, 18.2.3: $var).
pub fn declarations_are_read()
    ensures { DeclarationsAreRead }
{}

/// A reader of scopes finds each of these variables in the scopes in which it is declared, by their names,
/// and TCK in that of the top, where no name has a line feed or a blank (IEEE 1364-2005, 18.2.3: $scope,
/// $upscope).
pub fn scopes_are_read()
    ensures { ScopesAreRead }
{}

/// No two variables have one code (IEEE 1364-2005, 18.2.3).
pub fn codes_differ()
    ensures { CodesDiffer }
{}

/// The variables of a wave are what its kind shows of the network, each of it once, and no other (IEEE
/// 1687-2014, ICL: registers, multiplexers and ports; the words are those of the models).
pub fn vars_are_whole()
    ensures { VarsAreWhole }
{}

/// A variable is declared with as many bits as its value has digits at each clock of each play (IEEE
/// 1364-2005, 18.2.3: $var).
pub fn widths_agree()
    ensures { WidthsAgree }
{}

/// A reader finds in the text of a file, and in this text alone, which variables there are, in which scopes
/// they stand, and the digits of each at the times of both halves of each clock, of which it has as many as
/// it is declared with.
pub fn files_are_read()
    ensures { FilesAreRead }
{}

/// The scopes in which a variable is declared are the instance path of what it shows, with the top's name
/// before it and the name of the register or multiplexer after it, where the nodes of the network are in
/// preorder.
pub fn scopes_are_paths()
    ensures { ScopesArePaths }
{}
