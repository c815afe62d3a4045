// What becomes of a datagram, by a draw.

use std::marker::Model;

/// What becomes of a datagram that is said.
#[derive(Clone, Copy, Debug, PartialEq, Eq)]
pub enum Fate {
    /// It is lost.
    Lost,
    /// It comes twice.
    Doubled,
    /// It comes before the last one that waits.
    Overtaking,
    /// It comes once, after all that wait.
    Ordinary,
}

/// Where draws stand. Contracts see it as a number.
#[derive(Drop)]
pub(crate) struct Draws {
    state: u64,
}

impl Model for Draws {
    ghost use Rattle.std.specs.Prelude.{ℕ};

    ghost Value = { ℕ };

    ghost view = { λ d. d.state };
}

impl Draws {
    ghost use Rattle.std.specs.Prelude.{◌≡◌};
    ghost use Rattle.udt_model.specs.Draws.{next_state, draw};
    ghost use Rattle.udt_net.specs.Networks.{fate_of};

    // Draws that start from a number.
    pub(crate) fn from(state: u64) -> Draws
        ensures { result ≡ state }
    {
        Draws { state }
    }

    // Draws what becomes of a datagram.
    pub(crate) fn fate(&mut self) -> Fate
        ensures value { result ≡ fate_of (draw self.old) }
        ensures next { self.new ≡ next_state self.old }
    {
        self.state = self
            .state
            .wrapping_mul(6_364_136_223_846_793_005)
            .wrapping_add(1_442_695_040_888_963_407);
        match (self.state >> 33) % 64 {
            0 => Fate::Lost,
            1 => Fate::Doubled,
            2 => Fate::Overtaking,
            _ => Fate::Ordinary,
        }
    }
}
