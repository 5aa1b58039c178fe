// The TAP controller, clock by clock.
ghost use Rattle.std.specs.Prelude.{◌≡◌};
ghost use Rattle.tap_machine.specs.Tap.{next};

use crate::{TapState, next_state};
use std::marker::Model;

/// One clock of the controller: the state in which it came, and the state to which it led.
#[derive(Clone, Copy, PartialEq, Eq, Debug)]
pub struct Act {
    /// The state in which the clock came.
    pub before: TapState,
    /// The state to which it led.
    pub after: TapState,
}

/// A TAP controller. Contracts see its state.
#[derive(Drop)]
pub struct Tap {
    state: TapState,
}

impl Model for Tap {
    ghost use Rattle.tap_machine.specs.declared.TapState.{TapState};

    ghost Value = { TapState };

    ghost view = { λ t. t.state };
}

impl Tap {
    /// A controller at power-up: in Test-Logic-Reset.
    pub fn power_up() -> Tap
        ensures { result ≡ TapState.TestLogicReset }
    {
        Tap {
            state: TapState::TestLogicReset,
        }
    }

    /// One clock of TCK, with this TMS. It takes no memory.
    pub fn clock(&mut self, tms: bool) -> Act
        ensures before { result.before ≡ self.old }
        ensures after { result.after ≡ next self.old tms }
        ensures state { self.new ≡ next self.old tms }
    {
        let before = self.state;
        self.state = next_state(before, tms);
        Act {
            before,
            after: self.state,
        }
    }

    /// The state that it is in.
    pub fn state(&self) -> TapState
        ensures { result ≡ self.now }
    {
        self.state
    }
}
