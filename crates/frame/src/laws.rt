// What is proved of the definitions.
ghost use Rattle.frame.specs.Laws.{Pointwise, SamePlaces, SamePlacesBack, Back, Unmoved, SetField, SetPlaces, LinksAreFields, Append, AppendStarts, Kept, SetFieldBack, AppendBack, FieldOf, There, ValidEnds, ValidLinks, ValidStarts, PageBack, CellsBack};

// Of pages in frames and in the store.
pub fn swizzling_stands()
    ensures pointwise { Pointwise }
    ensures places { SamePlaces }
    ensures places_back { SamePlacesBack }
    ensures back { Back }
    ensures unmoved { Unmoved }
    ensures kept { Kept }
    ensures there { There }
{}

// Of changes to a page in a frame.
pub fn changes_stand()
    ensures field { SetField }
    ensures places { SetPlaces }
    ensures links { LinksAreFields }
    ensures append { Append }
    ensures starts { AppendStarts }
    ensures field_back { SetFieldBack }
    ensures append_back { AppendBack }
    ensures fields { FieldOf }
{}

// Of pages with no fault, and of bytes and cells.
pub fn pages_stand()
    ensures ends { ValidEnds }
    ensures links { ValidLinks }
    ensures starts { ValidStarts }
    ensures page { PageBack }
    ensures cells { CellsBack }
{}
