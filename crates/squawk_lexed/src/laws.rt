//! Laws of the definitions, for proofs: functions that do nothing, each with a law as its contract.
ghost use Rattle.std.specs.Prelude.{◌≡◌, ℕ, List};
ghost use Rattle.squawk_kinds.specs.Role.{role};
ghost use Rattle.squawk_lexer.specs.declared.token.TokenKind.{TokenKind};
ghost use Rattle.squawk_lexed.specs.Leaf.{leaf_kind, token_role};
ghost use Rattle.squawk_lexed.specs.LexedLaws.{TokensAreCutAtTheirStarts};
ghost use Rattle.squawk_lexed.specs.LexedText.{CutTokensAreSound};
ghost use Rattle.squawk_lexed.specs.WeaveLaws.{TriviaIsWoven};

use squawk_lexer::laws::{flags_lie_within, tokens_progress, tokens_restart};
use squawk_words::laws::keywords_are_plain;

/// The leaf of a token has the token's role, whatever the text of the token.
pub fn leaves_keep_roles()
    ensures { (token : TokenKind) (text : List ℕ) → role (leaf_kind token text) ≡ token_role token }
{
    keywords_are_plain();
}

/// The weave keeps the steps and the tokens in their order. Each trivia token stands directly
/// before the first `Enter`, `Token` or last `Exit` after its anchor: the token before it that is
/// not trivia, or the first `Enter` where there is none.
pub fn trivia_is_woven()
    ensures { TriviaIsWoven }
{}

/// Tokens that the lexer cut have at least one byte each, and their faults lie in them.
pub fn cut_tokens_are_sound()
    ensures { CutTokensAreSound }
{
    flags_lie_within();
}

/// Each token of a text is the one that the lexer cuts where it starts, with its leaf kind and its
/// faults, and starts at a character boundary.
pub fn tokens_are_cut_at_their_starts()
    ensures { TokensAreCutAtTheirStarts }
{
    tokens_progress();
    tokens_restart();
}
