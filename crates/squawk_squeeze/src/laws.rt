//! Laws of the definitions of squeezing, each the clause of a function that does nothing.
ghost use Rattle.squawk_squeeze.specs.Laws.{AreLexerTokens, TextsAddUp, RunsBecomeOneCharacter, OtherTokensAreKept, SqueezingKeepsTokens, SqueezingTwiceIsOnce, SqueezedIsNoLonger};

use squawk_lexer::laws::{tokens_look_ahead, tokens_progress, tokens_stay};

/// The tokens with their texts are those of the lexer, and their texts together are the text.
pub fn text_tokens_are_the_tokens()
    ensures lexer { AreLexerTokens }
    ensures texts { TextsAddUp }
{
    tokens_progress();
}

/// One character stands for each longest run of white space and comments, and every other token is
/// kept.
pub fn runs_become_one_character()
    ensures runs { RunsBecomeOneCharacter }
    ensures others { OtherTokensAreKept }
{}

/// The squeezed text has the tokens of the text but for white space and comments, squeezing it
/// changes nothing, and it is no longer than the text.
pub fn squeezing_keeps_tokens()
    ensures tokens { SqueezingKeepsTokens }
    ensures twice { SqueezingTwiceIsOnce }
    ensures no_longer { SqueezedIsNoLonger }
{
    tokens_progress();
    tokens_look_ahead();
    tokens_stay();
}
