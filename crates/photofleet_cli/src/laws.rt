//! Laws of the definitions.
ghost use Rattle.photofleet_cli.specs.Examples.{BatchesAreAsked, OrdersAreAsked, WordsAreAsTold, WorkersAreAsked};

/// The worked command lines ask for what the examples say, by `clap`'s definitions alone.
pub fn words()
    ensures run { WordsAreAsTold }
    ensures workers { WorkersAreAsked }
    ensures batches { BatchesAreAsked }
    ensures orders { OrdersAreAsked }
{}
