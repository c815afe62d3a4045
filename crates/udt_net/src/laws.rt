// What holds of every history of a network.
ghost use Rattle.udt_net.specs.Speaking.{HearsWhatWasSaid};

/// In each history of a network that was silent at first, each datagram heard at an address was said to that
/// address earlier.
#[tactic(auto, using(crate::proofs::Speeches::hears_what_was_said))]
pub fn hears_what_was_said()
    ensures { HearsWhatWasSaid }
{}
