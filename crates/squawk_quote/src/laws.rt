//! Laws of the definitions of values, each the clause of a function that does nothing.
ghost use Rattle.squawk_quote.specs.Laws as spec;

/// Doubled quotes are read back as the quotes of the value, and a value has one spelling as a
/// string constant and one as a quoted identifier.
pub fn quotes_are_read_back()
    ensures value { spec.EscapesAreUndone }
    ensures spelling { spec.SpellingIsUnique }
{}

/// The string constant of a value is one terminated token, and has this value.
pub fn string_constants_are_read_back()
    ensures token { spec.StringConstantsAreTokens }
    ensures value { spec.StringConstantsHaveTheirValue }
{}

/// The quoted identifier of a value is one terminated token, and has this value.
pub fn quoted_identifiers_are_read_back()
    ensures token { spec.QuotedIdentifiersAreTokens }
    ensures value { spec.QuotedIdentifiersHaveTheirValue }
{}

/// The dollar-quoted string of a value is one terminated token, and has this value.
pub fn dollar_constants_are_read_back()
    ensures token { spec.DollarConstantsAreTokens }
    ensures value { spec.DollarConstantsHaveTheirValue }
{}

/// The tag of a dollar-quoted string is the shortest run of `q` that fits. One pass over the value
/// finds which tags fit.
pub fn tag_is_the_shortest()
    ensures fits { spec.ShortestTagFits }
    ensures least { spec.ShorterTagsFail }
    ensures pass { spec.FitsUnlessTagOccurs }
{}
