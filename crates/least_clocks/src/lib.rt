//! How many clocks of TCK any SVF takes at least that does what a procedure asks for (IEEE 1149.1-2013, TAP
//! controller; IEEE 1687-2014, PDL level 0; Serial Vector Format, revision E).
//!
//! Each round that changes a bit or reads one takes a scan of its own. Its registers are on the path of that
//! scan, and so is each register around which no other row of a multiplexer is. The first scan since
//! power-up goes along the path at power-up. What else opens the way to a round, and the rows that other
//! multiplexers are in, don't count.
#![tactic(auto)]

ghost use Rattle.least_clocks.specs.Law.{NoneTakesFewer};

mod bound;
mod count;
mod first;
mod inside;
mod rows;
mod work;

pub use bound::least;

/// The law of fewest clocks: it carries no code, its clause says what is proved of the definitions.
///
/// On any network with its nested form: whatever commands can be played and are such that the audit says yes
/// of them for a procedure's bit steps, whoever wrote them, they take as many clocks of TCK as [`least`]
/// answers, or more. So commands that take no more than that can't be bettered.
///
/// IEEE 1149.1-2013 has the TAP controller, IEEE 1687-2014 the network and PDL, SVF revision E the commands.
pub fn least_law()
    ensures { NoneTakesFewer }
{}
