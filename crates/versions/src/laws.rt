// What versions promise over whole histories.
ghost use Rattle.versions.specs.Laws.{ShowAll, SweepHides, SweepTwice, SweepAlong, NewestDecides};

// The laws stand: a caller has them for any commits, with no store at hand.
pub fn laws_stand()
    ensures show { ShowAll }
    ensures hides { SweepHides }
    ensures twice { SweepTwice }
    ensures along { SweepAlong }
    ensures newest { NewestDecides }
{}
