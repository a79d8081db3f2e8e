//! Worked examples of relations that contracts of the crates below cite. The contract is a law, and its body does nothing.
ghost use Rattle.test_values.specs.Examples.{GatheredAsTold, TakenOutAsTold};

/// An element taken out of a list, and pictures in the groups of their vectors.
pub fn examples()
    ensures taken { TakenOutAsTold }
    ensures gathered { GatheredAsTold }
{}
