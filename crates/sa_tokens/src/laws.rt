//! What the definitions of this crate give together, each as a function that does nothing.

ghost use Rattle.sa_tokens.specs.Laws.{EachIsReadOnce, EachHasOneAnswer, EachPlaceIsCounted, EachTokenStands, EachIsLongest, EachBadByteBeginsNone, EachUntilIsFirst, EachCommentHasItsEnd};

/// Each text is read in one way: it is a row of pieces or has a first place that begins none, never both. So a source has one
/// answer: its tokens, a refusal or too many tokens.
pub fn reads_once()
    ensures once { EachIsReadOnce }
    ensures answer { EachHasOneAnswer }
{}

/// The line of a place is one more than the line feeds before it, its column one more than the bytes after the last of them.
/// Each token has the place where it is spelled.
pub fn counts_places()
    ensures counted { EachPlaceIsCounted }
    ensures stands { EachTokenStands }
{}

/// A token that is found is the longest that its text begins with, and a byte that is refused begins none.
pub fn takes_longest()
    ensures longest { EachIsLongest }
    ensures bad { EachBadByteBeginsNone }
{}

/// What is passed over ends at the first place where it may, and a comment after `/*` has an end exactly where it can be told.
pub fn ends_first()
    ensures until { EachUntilIsFirst }
    ensures comment { EachCommentHasItsEnd }
{}
