//! Classes of kinds: keywords and their categories, operators, punctuation, trivia.
ghost use Rattle.std.specs.Prelude.{◌↔◌, IsTrue, Contains};
ghost use Rattle.squawk_words.specs.Sets.{reserved_keywords, col_name_keyword_first, type_func_name_keywords};

use crate::{
    ALL_KEYWORDS, COL_NAME_KEYWORD_FIRST, CONTEXTUAL_KEYWORDS, OPERATORS, PUNCTUATION,
    RESERVED_KEYWORDS, TYPE_FUNC_NAME_KEYWORDS,
};
use squawk_kinds::SyntaxKind;

/// The class of a kind. A node, an identifier or a literal is of none of the four.
pub trait KindClass {
    ghost use Rattle.std.specs.Prelude.{◌↔◌, IsTrue};

    /// What `is_keyword` decides, in contracts.
    ghost keyword: { Self → Type 0 };

    /// What `is_operator` decides, in contracts.
    ghost operator: { Self → Type 0 };

    /// What `is_punctuation` decides, in contracts.
    ghost punctuation: { Self → Type 0 };

    /// What `is_trivia` decides, in contracts.
    ghost trivia: { Self → Type 0 };

    /// Whether it is a keyword or a contextual keyword.
    fn is_keyword(self) -> bool
        ensures { IsTrue result ↔ keyword self };

    /// Whether it is an operator, or another symbol that is not punctuation.
    fn is_operator(self) -> bool
        ensures { IsTrue result ↔ operator self };

    /// Whether it is punctuation.
    fn is_punctuation(self) -> bool
        ensures { IsTrue result ↔ punctuation self };

    /// Whether it is white space or a comment.
    fn is_trivia(self) -> bool
        ensures { IsTrue result ↔ trivia self };
}

impl KindClass for SyntaxKind {
    ghost use Rattle.std.specs.Prelude.{◌≡◌, ◌⊎◌, Contains};
    ghost use Rattle.squawk_words.specs.KeywordSets.{all_keywords};
    ghost use Rattle.squawk_words.specs.Sets.{contextual_keywords, operators, punctuation as symbols};
    ghost use Rattle.squawk_kinds.specs.declared.numbers.TheConstants.Number.{WHITESPACE, COMMENT};

    ghost keyword = { λ kind. Contains all_keywords kind ⊎ Contains contextual_keywords kind };

    ghost operator = { λ kind. Contains operators kind };

    ghost punctuation = { λ kind. Contains symbols kind };

    ghost trivia = { λ kind. (kind ≡ WHITESPACE) ⊎ (kind ≡ COMMENT) };

    fn is_keyword(self) -> bool {
        ALL_KEYWORDS.contains(self) || CONTEXTUAL_KEYWORDS.contains(self)
    }

    fn is_operator(self) -> bool {
        OPERATORS.contains(self)
    }

    fn is_punctuation(self) -> bool {
        PUNCTUATION.contains(self)
    }

    fn is_trivia(self) -> bool {
        self == SyntaxKind::WHITESPACE || self == SyntaxKind::COMMENT
    }
}

/// Whether the kind is a keyword of the category "reserved" (PostgreSQL, appendix C).
///
/// Unless it is quoted, such a word names no table, column, function or type.
pub fn is_reserved_keyword(kind: SyntaxKind) -> bool
    ensures { IsTrue result ↔ Contains reserved_keywords kind }
{
    RESERVED_KEYWORDS.contains(kind)
}

/// Whether the kind is a keyword of the category "non-reserved (cannot be function or type)"
/// (PostgreSQL, appendix C). Such a word may name a column or a table.
pub fn is_col_name_keyword(kind: SyntaxKind) -> bool
    ensures { IsTrue result ↔ Contains col_name_keyword_first kind }
{
    COL_NAME_KEYWORD_FIRST.contains(kind)
}

/// Whether the kind is a keyword of the category "reserved (can be function or type)"
/// (PostgreSQL, appendix C). Such a word names no column or table unless it is quoted.
pub fn is_type_func_name_keyword(kind: SyntaxKind) -> bool
    ensures { IsTrue result ↔ Contains type_func_name_keywords kind }
{
    TYPE_FUNC_NAME_KEYWORDS.contains(kind)
}
