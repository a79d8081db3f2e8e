//! Laws of the definitions. Each function's contract states a law; its body is empty.
ghost use Rattle.photo_batcher.specs.Examples.{FourBatches, FourInOrder, NamedInAVersion, NothingPlanned};
ghost use Rattle.photo_batcher.specs.Laws.{LawfulOrdersAreTheRun, SameRunsHaveOneTotal, BatchesAreOne};
ghost use Rattle.photo_batcher.specs.Laws.{BatchesAreASchedule, BatchesAreLeast, BatchesAreApart};
ghost use Rattle.photo_batcher.specs.Laws.{BatchesInTurnAreLawful, FollowedChainsAreLongest, PlansAreOne};
ghost use Rattle.photo_batcher.specs.Laws.{NoScheduleHasFewer, PlansInTurnAreLawful};

/// A lawful order gives the same devices and reports as the order of the script, and a log with the same entries.
pub fn lawful_orders_are_the_run()
    ensures { LawfulOrdersAreTheRun }
{}

/// Same runs have the same totals.
pub fn same_runs_have_one_total()
    ensures { SameRunsHaveOneTotal }
{}

/// Each command has at most one batch.
pub fn batches_are_one()
    ensures { BatchesAreOne }
{}

/// The batches are a schedule: of two related commands, the earlier one is in the lower batch.
pub fn batches_are_a_schedule()
    ensures { BatchesAreASchedule }
{}

/// No schedule gives a command a place below its batch.
pub fn batches_are_least()
    ensures { BatchesAreLeast }
{}

/// No two commands of one batch are related.
pub fn batches_are_apart()
    ensures { BatchesAreApart }
{}

/// The batches in turn, each in any order, are a lawful order.
pub fn batches_in_turn_are_lawful()
    ensures { BatchesInTurnAreLawful }
{}

/// Going back from a command, each time to the one that it goes after, gives a longest chain.
pub fn followed_chains_are_longest()
    ensures { FollowedChainsAreLongest }
{}

/// A script has at most one plan.
pub fn plans_are_one()
    ensures { PlansAreOne }
{}

/// Every schedule takes at least as many different places as a plan has batches.
pub fn no_schedule_has_fewer()
    ensures { NoScheduleHasFewer }
{}

/// The batches of a plan in turn, each in any order, are a lawful order.
pub fn plans_in_turn_are_lawful()
    ensures { PlansInTurnAreLawful }
{}

/// Worked scripts: the plan of one with four devices and its chains; lawful and other orders of its commands, and what another
/// order gives; a device that only a version names; and scripts without commands.
pub fn examples()
    ensures four_batches { FourBatches }
    ensures four_in_order { FourInOrder }
    ensures named_in_a_version { NamedInAVersion }
    ensures nothing_planned { NothingPlanned }
{}
