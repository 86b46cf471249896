// What is proved of the definitions.
ghost use Rattle.stands.specs.Laws.{Provides, Empties, Brings, Sets, Saves, AllClean, SavesAll, Adds, Shown, Reads, Opens, Comes, Settles, LawfulEnds, SameStarts, SlotsSuffice};

// Of single moves.
pub fn laws_stand()
    ensures provides { Provides }
    ensures empties { Empties }
    ensures brings { Brings }
    ensures sets { Sets }
    ensures adds { Adds }
    ensures saves { Saves }
    ensures clean { AllClean }
    ensures saves_all { SavesAll }
{}

// Of what is seen in frames, and of whole courses.
pub fn courses_stand()
    ensures shown { Shown }
    ensures reads { Reads }
    ensures opens { Opens }
    ensures comes { Comes }
    ensures settles { Settles }
    ensures ends { LawfulEnds }
    ensures starts { SameStarts }
    ensures slots { SlotsSuffice }
{}
