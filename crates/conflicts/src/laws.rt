// What holds of every list of commits that the rules allow.
ghost use Rattle.conflicts.specs.Laws.{FirstWins, Lowest, NoPivot};

// Of two under way together, the later a Snapshot or a Serial, that wrote the same key at most one has committed.
pub fn first_committer_wins()
    ensures { FirstWins }
{}

// No committed Serial is a pivot.
pub fn nobody_is_a_pivot()
    ensures { NoPivot }
{}

// The numbers that are kept of a commit, of one that it passes and of one that passes it, are the lowest.
pub fn lowest_is_kept()
    ensures { Lowest }
{}
