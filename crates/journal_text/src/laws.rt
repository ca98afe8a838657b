ghost use Rattle.journal_text.specs.Laws.{FourForms, OneJournal, ReadAgain, Spelled};

/// The test of a line's parts tells exactly whether the line is of one of the four forms.
#[tactic(auto, using(crate::proofs::FormsLaw::four_forms))]
pub fn four_forms()
    ensures { FourForms }
{}

/// A text without a refusal is the text of the journal that it spells.
pub fn spelled()
    ensures { Spelled }
{}

/// The text of a journal has no refusal, and it spells that journal.
#[tactic(auto, using(crate::proofs::ReadAgainLaw::read_again))]
pub fn read_again()
    ensures { ReadAgain }
{}

/// No two journals have one text.
#[tactic(auto, using(crate::proofs::ReadAgainLaw::one_journal))]
pub fn one_journal()
    ensures { OneJournal }
{}
