//! Worked examples of pulls.
ghost use Rattle.photo_pull.specs.Examples.{TheUpToDate, TheTaughtNothing, TheModelPull, ThePassed, TheFindings, TheWanting};

/// The definitions at small pulls: what is up to date and what is taught, what a pull moves and tells, when it finds something,
/// and when it may want memory.
#[tactic(auto, using(crate::proofs::WorkedExamples::the_up_to_date, crate::proofs::WorkedExamples::the_taught_nothing, crate::proofs::WorkedExamples::the_model_pull, crate::proofs::WorkedExamples::the_passed, crate::proofs::WorkedExamples::the_findings, crate::proofs::WorkedExamples::the_wanting))]
pub fn examples()
    ensures up_to_date { TheUpToDate }
    ensures taught_nothing { TheTaughtNothing }
    ensures pull { TheModelPull }
    ensures passed { ThePassed }
    ensures findings { TheFindings }
    ensures wanting { TheWanting }
{}
