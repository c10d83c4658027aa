//! Laws of the words and sets, for proofs: these functions exist for their contracts.
ghost use Rattle.std.specs.Prelude.{◌≡◌, ◌≢◌, ◌↔◌, ℕ, List, AllPairs, Any, Contains, IfSome};
ghost use Rattle.std.specs.declared.cmp.Ordering.TheVariants.{Less};
ghost use Rattle.squawk_words.specs.Categories.{categories, kind_sets};
ghost use Rattle.squawk_words.specs.KeywordSets.{all_keywords};
ghost use Rattle.squawk_kinds.specs.Role.{role, Other};
ghost use Rattle.squawk_words.specs.KindOf.{keyword_of};
ghost use Rattle.squawk_words.specs.Words.{keywords, contextual_keywords, word_cmp};

use crate::{
    ALL_KEYWORDS, BARE_LABEL_KEYWORDS, COL_NAME_KEYWORD_FIRST, COLUMN_OR_TABLE_KEYWORDS,
    CONTEXTUAL_KEYWORDS, KindSet, OPERATORS, PLPGSQL_RESERVED_CONTEXTUAL_KEYWORDS,
    PLPGSQL_RESERVED_KEYWORDS, PUNCTUATION, RESERVED_KEYWORDS, TYPE_FUNC_NAME_KEYWORDS,
    TYPE_KEYWORDS, UNRESERVED_KEYWORDS,
};
use std::alloc::AllocError;

/// Each table of words is sorted by length and then by bytes, and has no word twice.
pub fn words_are_sorted()
    ensures keywords { AllPairs (λ a b. word_cmp a.0 b.0 ≡ Less) keywords }
    ensures contextual { AllPairs (λ a b. word_cmp a.0 b.0 ≡ Less) contextual_keywords }
    ensures keywords_once { AllPairs (λ a b. a.0 ≢ b.0) keywords }
    ensures contextual_once { AllPairs (λ a b. a.0 ≢ b.0) contextual_keywords }
{}

/// Each keyword belongs to exactly one of PostgreSQL's four categories (appendix C).
pub fn keywords_have_categories()
    ensures union { (kind : ℕ) → Contains all_keywords kind
        ↔ Any (λ category. Contains category kind) categories }
    ensures disjoint { AllPairs (λ a b. (kind : ℕ) → Contains a kind → ¬ Contains b kind)
        categories }
{}

/// A clone of a set is the set, and cloning does not fail.
pub fn clones_are_equal(set: KindSet) -> Result<KindSet, AllocError>
    ensures { result ≡ Ok set }
{
    set.clone()
}

/// Returns the thirteen constants: each is the set of its name.
pub fn sets_have_members() -> [KindSet; 13]
    ensures { result ≡ kind_sets }
{
    [
        PUNCTUATION,
        OPERATORS,
        CONTEXTUAL_KEYWORDS,
        COLUMN_OR_TABLE_KEYWORDS,
        TYPE_KEYWORDS,
        COL_NAME_KEYWORD_FIRST,
        TYPE_FUNC_NAME_KEYWORDS,
        ALL_KEYWORDS,
        BARE_LABEL_KEYWORDS,
        UNRESERVED_KEYWORDS,
        RESERVED_KEYWORDS,
        PLPGSQL_RESERVED_KEYWORDS,
        PLPGSQL_RESERVED_CONTEXTUAL_KEYWORDS,
    ]
}

/// No keyword is trivia, ends a statement, is a psql command or a parenthesis.
pub fn keywords_are_plain()
    ensures { (text : List ℕ) → IfSome (keyword_of text) (λ kind. role kind ≡ Other) }
{}
