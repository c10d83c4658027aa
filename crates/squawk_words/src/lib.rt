//! The keywords of PostgreSQL and PL/pgSQL by their text, and sets of kinds.
//!
//! No call allocates. A perfect hash finds the only word that a text can equal, and membership in a
//! set is one bit of a table.
#![tactic(auto)]

ghost use Rattle.std.specs.Prelude.{◌≡◌, ◌↔◌, IsNone, IfSome, OnSome, Some, slice_get};
ghost use Rattle.squawk_names.specs.Texts.{texts};
ghost use Rattle.squawk_kinds.specs.Role.{role, Other};
ghost use Rattle.squawk_words.specs.KindOf.{keyword_of, contextual_keyword_of, HasNoWord, HasWord, backquoted};
ghost use Rattle.squawk_words.specs.Words.{keywords, contextual_keywords};

mod class;
mod flags;
pub mod laws;
mod search;
mod sets;
mod slots;
mod tables;
#[cfg(test)]
mod tests;

pub use class::{KindClass, is_col_name_keyword, is_reserved_keyword, is_type_func_name_keyword};
pub use sets::{
    ALL_KEYWORDS, BARE_LABEL_KEYWORDS, COL_NAME_KEYWORD_FIRST, COLUMN_OR_TABLE_KEYWORDS,
    CONTEXTUAL_KEYWORDS, KindSet, OPERATORS, PLPGSQL_RESERVED_CONTEXTUAL_KEYWORDS,
    PLPGSQL_RESERVED_KEYWORDS, PUNCTUATION, RESERVED_KEYWORDS, TYPE_FUNC_NAME_KEYWORDS,
    TYPE_KEYWORDS, UNRESERVED_KEYWORDS,
};
use squawk_kinds::SyntaxKind;
use tables::Table;

/// Returns the kind of the keyword that `ident` spells, or `None` where it spells none.
///
/// Keywords are those of PostgreSQL (manual, appendix C), of every category. As in PostgreSQL
/// (4.1.1), they are compared ASCII case-insensitively: `SELECT` and `Select` are the keyword
/// `select`, but U+212A, the Kelvin sign, is not the letter `k`.
#[inline(always)]
#[tactic(auto, unfolding(crate::specs::KindOf::keyword_of, crate::specs::KindOf::contextual_keyword_of))]
pub fn from_keyword(ident: &str) -> Option<SyntaxKind>
    ensures kind { result ≡ keyword_of ident.now }
    ensures none { IsNone result ↔ HasNoWord keywords ident.now }
    ensures some { IfSome result (HasWord keywords ident.now) }
    ensures role { IfSome result (λ kind. role kind ≡ Other) }
    ensures printed { IfSome result (λ kind. slice_get texts kind ≡ Some (backquoted ident.now)) }
    ensures apart { OnSome result (IsNone (contextual_keyword_of ident.now)) }
{
    search::look_up(Table::Keywords, ident)
}

/// Returns the kind of the contextual keyword that `ident` spells, or `None` where it spells none.
///
/// A contextual keyword, such as `loop`, is a keyword in the bodies of PL/pgSQL alone. It is
/// compared as in `from_keyword`.
#[tactic(auto, unfolding(crate::specs::KindOf::keyword_of, crate::specs::KindOf::contextual_keyword_of))]
pub fn from_contextual_keyword(ident: &str) -> Option<SyntaxKind>
    ensures kind { result ≡ contextual_keyword_of ident.now }
    ensures none { IsNone result ↔ HasNoWord contextual_keywords ident.now }
    ensures some { IfSome result (HasWord contextual_keywords ident.now) }
    ensures printed { IfSome result (λ kind. slice_get texts kind ≡ Some (backquoted ident.now)) }
    ensures apart { OnSome result (IsNone (keyword_of ident.now)) }
{
    search::look_up(Table::ContextualKeywords, ident)
}
