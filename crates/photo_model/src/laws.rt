//! Laws of model devices.
ghost use Rattle.photo_model.specs.Examples.{TheUpToDate, TheTaughtNothing, TheModelPull};

/// Worked pulls: which targets are up to date, which pulls teach nothing, and what a pull moves.
#[tactic(auto, using(crate::proofs::WorkedExamples::the_up_to_date, crate::proofs::WorkedExamples::the_taught_nothing, crate::proofs::WorkedExamples::the_model_pull))]
pub fn examples()
    ensures up_to_date { TheUpToDate }
    ensures taught_nothing { TheTaughtNothing }
    ensures pull { TheModelPull }
{}
