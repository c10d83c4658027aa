//! Sets of kinds: the keyword categories of PostgreSQL and PL/pgSQL, punctuation and operators.
ghost use Rattle.std.specs.Prelude.{◌≡◌, ◌<◌, ◌↔◌, IsTrue, Contains};
ghost use Rattle.squawk_words.specs.Flags.{bit_of};

use crate::flags;
use squawk_kinds::SyntaxKind;
use std::marker::Model;

/// A set of kinds: one of the constants of this crate. Contracts see the list of its members.
#[derive(Clone, Copy, Debug)]
pub struct KindSet {
    set: Set,
}

impl Model for KindSet {
    ghost use Rattle.std.specs.Prelude.{ℕ, List, length};
    ghost use Rattle.squawk_words.specs.Members.{members_of, set_of, set_of_members};

    ghost Value = { List ℕ };

    ghost view = { λ kinds. members_of kinds.set };

    // No two sets have equally many members.
    ghost inverse = { λ members. record { set = set_of (length members) } };

    ghost inverse_ok = { λ kinds _. λ i. record { set = set_of_members kinds.set i } };
}

// The sets, in the order of their bits in the table of flags.
#[derive(Clone, Copy, Debug)]
enum Set {
    Punctuation,
    Operators,
    ContextualKeywords,
    ColumnOrTableKeywords,
    TypeKeywords,
    ColNameKeywordFirst,
    TypeFuncNameKeywords,
    AllKeywords,
    BareLabelKeywords,
    UnreservedKeywords,
    ReservedKeywords,
    PlpgsqlReservedKeywords,
    PlpgsqlReservedContextualKeywords,
}

/// Punctuation: `;`, `,`, `.`, `..`, parentheses, brackets and braces.
pub const PUNCTUATION: KindSet = KindSet {
    set: Set::Punctuation,
};

/// All other symbols: operators, and the characters that operators consist of.
pub const OPERATORS: KindSet = KindSet {
    set: Set::Operators,
};

/// The contextual keywords: keywords in the bodies of PL/pgSQL alone.
pub const CONTEXTUAL_KEYWORDS: KindSet = KindSet {
    set: Set::ContextualKeywords,
};

/// Keywords that may name a column or a table: `UNRESERVED_KEYWORDS` and
/// `COL_NAME_KEYWORD_FIRST`.
pub const COLUMN_OR_TABLE_KEYWORDS: KindSet = KindSet {
    set: Set::ColumnOrTableKeywords,
};

/// Keywords that a type may begin with: all but the reserved ones.
pub const TYPE_KEYWORDS: KindSet = KindSet {
    set: Set::TypeKeywords,
};

/// Keywords that may name a column or a table, but no function or type; in PostgreSQL's appendix C
/// "non-reserved (cannot be function or type)".
pub const COL_NAME_KEYWORD_FIRST: KindSet = KindSet {
    set: Set::ColNameKeywordFirst,
};

/// Keywords that may name a function or a type, but no column or table; in PostgreSQL's appendix C
/// "reserved (can be function or type)".
pub const TYPE_FUNC_NAME_KEYWORDS: KindSet = KindSet {
    set: Set::TypeFuncNameKeywords,
};

/// All keywords but the contextual ones.
pub const ALL_KEYWORDS: KindSet = KindSet {
    set: Set::AllKeywords,
};

/// Keywords that may be a column label without `AS`: all but those that PostgreSQL's appendix C
/// marks "requires `AS`".
pub const BARE_LABEL_KEYWORDS: KindSet = KindSet {
    set: Set::BareLabelKeywords,
};

/// Keywords that may name anything; in PostgreSQL's appendix C "non-reserved".
pub const UNRESERVED_KEYWORDS: KindSet = KindSet {
    set: Set::UnreservedKeywords,
};

/// Keywords that name no table, column, function or type unless they are quoted; in PostgreSQL's
/// appendix C "reserved".
pub const RESERVED_KEYWORDS: KindSet = KindSet {
    set: Set::ReservedKeywords,
};

/// Keywords that PL/pgSQL reserves: they name no variable in its bodies unless they are quoted.
pub const PLPGSQL_RESERVED_KEYWORDS: KindSet = KindSet {
    set: Set::PlpgsqlReservedKeywords,
};

/// Contextual keywords that PL/pgSQL reserves, as it does `PLPGSQL_RESERVED_KEYWORDS`.
pub const PLPGSQL_RESERVED_CONTEXTUAL_KEYWORDS: KindSet = KindSet {
    set: Set::PlpgsqlReservedContextualKeywords,
};

impl KindSet {
    /// Whether the kind is a member of the set. Takes constant time.
    pub fn contains(self, kind: SyntaxKind) -> bool
        ensures { IsTrue result ↔ Contains self kind }
    {
        let flags = flags::flags();
        let number = kind.to_raw() as usize;
        number < flags.len() && (flags[number] >> self.set.bit()) % 2 == 1
    }
}

impl Set {
    // The number of the set's bit in the table of flags.
    fn bit(self) -> u16
        ensures number { result ≡ bit_of self }
        ensures below { result < 16 }
    {
        self as u16
    }
}
