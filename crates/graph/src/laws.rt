// What holds over runs.
ghost use Rattle.graph.specs.Laws.{EditedInOrder, OthersKept, WritingKept, WholeKept, CellsLast, RefusedUnchanged, EighteenExactly, EighteenAtCalls};
ghost use Rattle.graph.specs.Standing.{LawfulKept, CursorsStand};

// After any run the pages are those before it with the granted edits made in order; a page that none of them names is as
// it was; how many pages there are and which are open to writing never changes, and whole pages stay whole.
pub fn edits_law_stands()
    ensures in_order { EditedInOrder }
    ensures others { OthersKept }
    ensures writing { WritingKept }
    ensures whole { WholeKept }
{}

// Each cell of a page after any run is what the last granted edit put there, else as it was.
pub fn cells_law_stands()
    ensures { CellsLast }
{}

// A refused call changes nothing.
pub fn refusals_law_stands()
    ensures { RefusedUnchanged }
{}

// Addresses run out exactly at an opening for which too many pages are wanted, and a call says so exactly where it comes
// to such an opening.
pub fn eighteen_law_stands()
    ensures exactly { EighteenExactly }
    ensures calls { EighteenAtCalls }
{}

// A page that is lawful at opening is lawful after any run, its objects start where they did, and each cursor that is not
// empty stands on an object of a lawful page.
pub fn lawful_law_stands()
    ensures lawful { LawfulKept }
    ensures cursors { CursorsStand }
{}
