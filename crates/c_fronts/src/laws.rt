// The laws on fronts. The bodies do nothing: the clauses are theorems.

ghost use Rattle.c_fronts.specs.Examples.{RefusedFronts};
ghost use Rattle.c_fronts.specs.Fronts.{FrontsAreKnown, StoppedTextsAreRefused};
ghost use Rattle.c_fronts.specs.Stops.{ReaderStopsWhereTextsDo};

/// What is known of a front hangs on the front alone, whatever text goes on from it.
pub fn fronts_are_known()
    ensures { FrontsAreKnown }
{}

/// So tokens that stop are refused, and any one text that begins so tells by what.
pub fn stopped_texts_are_refused()
    ensures { StoppedTextsAreRefused }
{}

/// These texts stop in their midst, and are refused by that cause at that place.
pub fn fronts_are_refused()
    ensures { RefusedFronts }
{}

/// The reader of the grammar reads each text that is a unit, and stops where any other text does.
pub fn reader_stops_where_texts_do()
    ensures { ReaderStopsWhereTextsDo }
{}
