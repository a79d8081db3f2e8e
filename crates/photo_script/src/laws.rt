//! Laws of the definitions. Each function's contract states a law; its body is empty.
ghost use Rattle.photo_script.specs.Laws.{AnswersAreOne};
ghost use Rattle.photo_script.specs.Examples.{FirstRun, KnownTexts, LaterEpochTexts, MovedTexts, Counts};

pub use script_reader::laws::accepted_are_scripts;

/// Each model report has at most one right answer, also where it gives a knowledge.
pub fn answers_are_one()
    ensures { AnswersAreOne }
{}

/// Worked runs. A camera makes a picture and lists it, from its script to the texts of its reports. Other examples show reports
/// on knowledge, versions of later epochs, pulls, filters and conflicts, and the totals of runs. How texts are read is worked
/// in `script_reader::laws::examples`.
pub fn examples()
    ensures first_run { FirstRun }
    ensures known_texts { KnownTexts }
    ensures later_epoch_texts { LaterEpochTexts }
    ensures moved_texts { MovedTexts }
    ensures counts { Counts }
{}
