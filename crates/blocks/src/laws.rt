//! The meaning of what is said to fit, by a judgement of which number fits which.
ghost use Rattle.blocks.specs.Judgements.{SettledSlotsFit, TruthsStay};

/// Where all that was said is true by a judgement, a slot that is settled fits by that judgement.
pub fn settled_slots_fit()
    ensures { SettledSlotsFit }
{}

/// All that was said stays true by a judgement, as long as only such rows are said to fit as do by that judgement.
pub fn truths_stay()
    ensures { TruthsStay }
{}
