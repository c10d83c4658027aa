//! Laws of the definitions, for proofs: functions that allocate and return nothing, each with a law
//! as its contract.
ghost use Rattle.squawk_cut.specs.Laws.{PlainTokensAreTheLexers, PlainChildrenJoin};

use squawk_lexed::laws::cut_tokens_are_sound;
use squawk_lexer::laws::{flags_lie_within, tokens_progress, tokens_restart};
use squawk_tree::laws::children_join;

/// For every text, the tokens that a plain front tells are those of the lexer, and the join of the
/// children that it tells is the parse of the text.
pub fn plain_fronts_parse()
    ensures tokens { PlainTokensAreTheLexers }
    ensures children { PlainChildrenJoin }
{
    tokens_progress();
    tokens_restart();
    flags_lie_within();
    cut_tokens_are_sound();
    children_join();
}
