//! The law of households that a pull needs, and worked examples.
ghost use Rattle.receipted_device.specs.Laws.{CopiesMayBeTaken};
ghost use Rattle.receipted_device.specs.Examples.{TheReceipts, TheSettling};

/// A live device of a household may take from each copy that it may pull from.
#[tactic(auto, using(crate::proofs::Households::copies_may_be_taken))]
pub fn copies_may_be_taken()
    ensures { CopiesMayBeTaken }
{}

/// The definitions at small values: which receipts a list has, and what settling leaves.
#[tactic(auto, using(crate::proofs::Households::the_receipts, crate::proofs::Households::the_settling))]
pub fn examples()
    ensures receipts { TheReceipts }
    ensures settling { TheSettling }
{}
