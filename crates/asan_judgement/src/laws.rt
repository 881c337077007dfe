//! What the definitions come to. Each function does nothing: its contract is the law.

ghost use Rattle.asan_judgement.specs.Complete.{IsComplete};
ghost use Rattle.asan_judgement.specs.Worse.{AreWorse};
ghost use Rattle.asan_judgement.specs.declared.facts.Fate.{Fate as AFate};
ghost use Rattle.asan_judgement.specs.declared.facts.Ending.{Ending as AnEnding};
ghost use Rattle.asan_judgement.specs.declared.facts.Facts.{Facts as SomeFacts};

/// Facts that are worse never make a process complete that is not complete without them.
pub fn worse_facts_make_nothing_complete()
    ensures { (fate : AFate) (ending : AnEnding) (facts others : SomeFacts) →
        AreWorse facts others → IsComplete fate ending others → IsComplete fate ending facts }
{}
