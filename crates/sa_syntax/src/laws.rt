//! Laws of the grammar and of its reader.

ghost use Rattle.sa_syntax.specs.SoundLaws.{MoreRoomReadsTheSame, MoreRoomReadsTheSameSource, ReadingsAreExpressions, ReadingsAreSources};
ghost use Rattle.sa_syntax.specs.ExprLaws.{ReadsExpressions, ReadsPlaces, ReadsTypes, ReadsDeclrs};
ghost use Rattle.sa_syntax.specs.Places.{PlacesRise};
ghost use Rattle.sa_syntax.specs.RefusalLaws.{TellsDepth, TellsPlace};
ghost use Rattle.sa_syntax.specs.StmtLaws.{ReadsStatements, ReadsSources, HasOneTree};

/// What is read as an expression is one by the grammar.
pub fn readings_are_expressions()
    ensures { ReadingsAreExpressions }
{}

/// Where more may be open, the same is read, unless less was too little.
pub fn more_room_reads_the_same()
    ensures { MoreRoomReadsTheSame }
{}

/// What is read as a source is one by the grammar.
pub fn readings_are_sources()
    ensures { ReadingsAreSources }
{}

/// Where more may be open, the same source is read, unless less was too little.
pub fn more_room_reads_the_same_source()
    ensures { MoreRoomReadsTheSameSource }
{}

/// What the grammar has as an expression is read as that expression, whatever follows, as long as it does not go on.
pub fn reads_expressions()
    ensures { ReadsExpressions }
{}

/// The same for places.
pub fn reads_places()
    ensures { ReadsPlaces }
{}

/// The same for types.
pub fn reads_types()
    ensures { ReadsTypes }
{}

/// The same for lists of declared names.
pub fn reads_declrs()
    ensures { ReadsDeclrs }
{}

/// What the grammar has as a statement is read as that statement, whatever follows.
pub fn reads_statements()
    ensures { ReadsStatements }
{}

/// Each tree of a source is what is read.
pub fn reads_sources()
    ensures { ReadsSources }
{}

/// The tokens of a source have at most one tree, however much may be open.
pub fn has_one_tree()
    ensures { HasOneTree }
{}

/// A source that is refused for depth is too deep at the token that is told, and at none before it.
pub fn tells_depth()
    ensures { TellsDepth }
{}

/// A source that is refused otherwise is refused at the first token with which no text begins, or at its end, and is too deep
/// at no token before.
pub fn tells_place()
    ensures { TellsPlace }
{}

/// In the block of a function the called names and the words of loops stand one after the other, as the tokens of the text do: so
/// no two of them have one place.
pub fn places_rise()
    ensures { PlacesRise }
{}
