//! Laws of refusals.

ghost use Rattle.sa_rules.specs.Rules.{IsRule, IsExact, IsMissingMain, undeclared, declared_twice, no_type, no_field, unassignable, ill_copied, no_constant, oversized, ill_begun, misqualified, astray};
ghost use Rattle.sa_rules.specs.Sites.{StandAtSites};

/// Refusals with code 1 stand exactly at the names of variables that aren't visible there.
pub fn names_are_declared()
    ensures listed { IsRule 1 undeclared }
    ensures exact { IsExact 1 undeclared }
{}

/// Refusals with code 2 stand exactly at the names and tags that are declared where they are visible already, and at fields
/// with the name of a field before or of a type.
pub fn names_are_declared_once()
    ensures listed { IsRule 2 declared_twice }
    ensures exact { IsExact 2 declared_twice }
{}

/// Refusals with code 3 stand exactly at the first tokens of types whose words are no whole-number type, whose tag isn't that
/// of a complete structure, or that are void where an object is declared.
pub fn types_are_types()
    ensures listed { IsRule 3 no_type }
    ensures exact { IsExact 3 no_type }
{}

/// Refusals with code 4 stand exactly at the names of fields that the structure before the `.` doesn't have.
pub fn fields_are_there()
    ensures listed { IsRule 4 no_field }
    ensures exact { IsExact 4 no_field }
{}

/// Refusals with code 6 stand exactly at the first tokens of left sides that begin with an input or a `const` variable, or step
/// to a `const` field.
pub fn left_sides_are_free()
    ensures listed { IsRule 6 unassignable }
    ensures exact { IsExact 6 unassignable }
{}

/// Refusals with code 7 stand exactly at each `=` behind which a place by itself is a structure, where the place before it is
/// another structure, or where an index of one of the two isn't constant.
pub fn copies_are_of_one_structure()
    ensures listed { IsRule 7 ill_copied }
    ensures exact { IsExact 7 ill_copied }
{}

/// Refusals with code 18 stand exactly at the first tokens of dimensions, and of initial values of the file scope and within
/// braces that are for numbers, that are no constant expressions or err.
pub fn constants_are_constant()
    ensures listed { IsRule 18 no_constant }
    ensures exact { IsExact 18 no_constant }
{}

/// Refusals with code 19 stand exactly at the first tokens of dimensions that are constant expressions with a value below 1 or
/// above 16,777,216.
pub fn dimensions_are_in_range()
    ensures listed { IsRule 19 oversized }
    ensures exact { IsExact 19 oversized }
{}

/// Refusals with code 20 stand exactly at the braces of each item that is one too many, or that stands where a number is needed,
/// at the first tokens of expressions where braces are needed, and of constants outside their type, and at the first tokens of
/// initialisers of inputs.
pub fn initialisers_fit()
    ensures listed { IsRule 20 ill_begun }
    ensures exact { IsExact 20 ill_begun }
{}

/// Refusals with code 21 stand exactly at each `volatile` elsewhere than at file scope before whole numbers without dimensions,
/// and at each `static` before fields.
pub fn qualifiers_stand_in_place()
    ensures listed { IsRule 21 misqualified }
    ensures exact { IsExact 21 misqualified }
{}

/// A refusal with code 22 stands at the end of the text exactly where there is no main with the clock loop that gives void or int.
pub fn there_is_a_main()
    ensures { IsMissingMain }
{}

/// Refusals with code 23 stand exactly at each wait that doesn't end the clock loop, and at the first tokens of the items after
/// the clock loop.
pub fn waits_stand_in_place()
    ensures listed { IsRule 23 astray }
    ensures exact { IsExact 23 astray }
{}

/// Refusals with code 5 stand only where an operand is taken or a name is used: at a mark that takes a number, an array or a
/// structure, at the name of a variable or of main, at a `*` before a name. Whether one stands there depends on types.
pub fn operands_are_refused_at_their_sites()
    ensures { StandAtSites }
{}
