// What is printed is read again.
ghost use Rattle.icl_printer.specs.Again.{DesignsAreReadAgain, PrintedTokensDeriveIt};

/// A design that some tokens derive by the grammar of ICL (IEEE 1687-2014) is derived, places aside, by the
/// tokens that it is printed with. The tokens are pieces of their kinds, as those of any text are.
pub fn printed_tokens_derive_the_design()
    ensures { PrintedTokensDeriveIt }
{}

/// A design that is read of a text is read again, places aside, of the text that
/// [`put_design`](crate::put_design) writes of it.
pub fn designs_are_read_again()
    ensures { DesignsAreReadAgain }
{}
