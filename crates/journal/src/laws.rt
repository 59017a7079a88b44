// What records and files promise.
ghost use Rattle.journal.specs.Laws.{RecordBack, FileBack, CutAnywhere, InPieces, Canonical, ReadFine, FilesJoin, Cases};

// The laws stand: a caller has them for any commits and bytes.
pub fn laws_stand()
    ensures records { RecordBack }
    ensures files { FileBack }
    ensures cuts { CutAnywhere }
    ensures pieces { InPieces }
    ensures canonical { Canonical }
    ensures fine { ReadFine }
    ensures join { FilesJoin }
    ensures cases { Cases }
{}
