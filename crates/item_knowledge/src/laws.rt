//! Laws of what fragments denote. Each function's contract is a law, and its body does nothing.
ghost use Rattle.item_knowledge.specs.Laws.{VectorsAreOne, NormalFormsAreOne, StarIsOfEvery, EachHasOneNormalForm};
ghost use Rattle.item_knowledge.specs.Examples.{TheLibrary, TheNormalForms, TheVectors, TheStaged, TheUnions, TheGroups, TheMarks, TheEpochs, TheExcess};

/// The versions that a vector denotes determine the vector.
#[tactic(auto, using(crate::proofs::EntryLemmas::one_vector))]
pub fn vectors_are_one()
    ensures { VectorsAreOne }
{}

/// The pairs that a normal form denotes determine the normal form.
#[tactic(auto, using(crate::proofs::FragmentLemmas::one_normal))]
pub fn normal_forms_are_one()
    ensures { NormalFormsAreOne }
{}

/// What is known of every picture, together with what else is known of some pictures, has exactly one normal form.
#[tactic(auto, using(crate::proofs::NormalLemmas::has_one))]
pub fn each_has_one_normal_form()
    ensures { EachHasOneNormalForm }
{}

/// The star is what is known of every picture.
#[tactic(auto, using(crate::proofs::FragmentLemmas::star_of_every))]
pub fn star_is_of_every()
    ensures { StarIsOfEvery }
{}

/// The definitions, worked for some fragments.
#[tactic(auto, using(crate::proofs::WorkedExamples::the_staged, crate::proofs::WorkedExamples::the_unions, crate::proofs::WorkedExamples::the_groups, crate::proofs::WorkedExamples::the_marks))]
pub fn examples()
    ensures library { TheLibrary }
    ensures normal_forms { TheNormalForms }
    ensures vectors { TheVectors }
    ensures staged { TheStaged }
    ensures unions { TheUnions }
    ensures groups { TheGroups }
    ensures marks { TheMarks }
    ensures epochs { TheEpochs }
    ensures excess { TheExcess }
{}
