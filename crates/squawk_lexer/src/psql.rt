//! psql's backslash commands (PostgreSQL manual, psql, "Meta-Commands").
ghost use Rattle.std.specs.Prelude.{◌≡◌, slice_index, codes};
ghost use Rattle.std.specs.Str.{chars, str_eq_ignore_ascii_case};
ghost use Rattle.squawk_lexer.specs.Kind.{lexeme_until};
ghost use Rattle.squawk_lexer.specs.Classes.{backslash};
ghost use Rattle.squawk_lexer.specs.PsqlWords as words;
ghost use Rattle.squawk_lexer.specs.Psql as spec;

use crate::classes::Class;
use crate::cursor::Cursor;
use crate::token::TokenKind;

// The first byte of a command's name, or NUL if it has none. The lists of names below are divided
// by it, so that most names are compared with few others.
fn first_byte(word: &str) -> u8
    ensures { result ≡ slice_index word.now 0 }
{
    let bytes = word.as_bytes();
    if bytes.len() > 0 { bytes[0] } else { 0 }
}

// Whether the command ends the query before it: it sends, finishes or resets the query buffer.
fn is_query_ending(word: &str) -> bool
    ensures { result ≡ words.is_among words.query_ending_words (chars word.now) }
{
    match first_byte(word) {
        b'g' => ["g", "gx", "gdesc", "gexec", "gset", "getresults"].contains(&word),
        b'c' => ["crosstabview", "close_prepared"].contains(&word),
        b's' => ["sendpipeline", "startpipeline", "syncpipeline"].contains(&word),
        b'f' => ["flush", "flushrequest"].contains(&word),
        b'r' => ["r", "reset"].contains(&word),
        b'e' => word == "endpipeline",
        b'p' => word == "parse",
        b'w' => word == "watch",
        _ => false,
    }
}

// Whether the output of the command can go to a pipe.
fn takes_pipe(word: &str) -> bool
    ensures { result ≡ words.is_among words.pipe_words (chars word.now) }
{
    match first_byte(word) {
        b'g' => takes_options(word),
        b'o' => ["o", "out"].contains(&word),
        b'w' => ["w", "write"].contains(&word),
        _ => false,
    }
}

// Whether the command can have options in parentheses. Such a command takes a pipe too.
fn takes_options(word: &str) -> bool
    ensures { result ≡ words.is_among words.option_words (chars word.now) }
{
    ["g", "gx"].contains(&word)
}

// Whether the command takes the rest of the line as it is. `copy` is another: see `is_copy`.
fn is_whole_line_word(word: &str) -> bool
    ensures { result ≡ words.is_among words.whole_line_words (chars word.now) }
{
    match first_byte(word) {
        b'!' => word == "!",
        b'e' => ["ef", "ev"].contains(&word),
        b's' => ["sf", "sf+", "sv", "sv+"].contains(&word),
        b'h' => ["h", "help"].contains(&word),
        _ => false,
    }
}

// Like psql, compares this name ASCII case-insensitively.
fn is_copy(word: &str) -> bool
    ensures { result ≡ str_eq_ignore_ascii_case (chars word.now) (codes "copy") }
{
    word.eq_ignore_ascii_case("copy")
}

fn takes_line(word: &str) -> bool
    ensures { result ≡ words.takes_line (chars word.now) }
{
    is_whole_line_word(word) || is_copy(word)
}

impl<'a> Cursor<'a> {
    // Consumes a token that begins with a backslash, which was consumed: psql's separator `\\`, an
    // escaped `;` or `:`, or a command.
    // Not inlined, so that `advance_token` stays small.
    #[inline(never)]
    pub(crate) fn psql_command(&mut self) -> TokenKind
        requires first { slice_index self.old.text 0 ≡ backslash }
        requires at { self.old.at ≡ 1 }
        ensures text { self.new.text ≡ self.old.text }
        ensures lexeme { lexeme_until result self.new.at ≡ spec.psql self.old.text }
    {
        match self.first() {
            '\\' => {
                self.bump();
                TokenKind::PsqlCommand { ends_query: false }
            }
            ';' => {
                self.bump();
                TokenKind::Semi
            }
            ':' => {
                self.bump();
                TokenKind::Colon
            }
            _ => {
                let word = self.command_word();
                self.eat_command_rest(word);
                TokenKind::PsqlCommand {
                    ends_query: is_query_ending(word),
                }
            }
        }
    }

    // Consumes the name of a command, whose backslash was consumed, and returns it.
    fn command_word(&mut self) -> &'a str
        requires first { slice_index self.old.text 0 ≡ backslash }
        requires at { self.old.at ≡ 1 }
        ensures text { self.new.text ≡ self.old.text }
        ensures at { self.new.at ≡ spec.word_end self.old.text }
        ensures chars { chars result.now ≡ spec.command_word self.old.text }
    {
        self.eat_while(Class::CommandChar);
        &self.consumed_text()[1..]
    }

    // Consumes the arguments of the command `name`, by the rules for that name.
    fn eat_command_rest(&mut self, name: &str)
        requires name { chars name.now ≡ spec.command_word self.old.text }
        requires at { self.old.at ≡ spec.word_end self.old.text }
        ensures text { self.new.text ≡ self.old.text }
        ensures at { self.new.at ≡ spec.command_end self.old.text }
    {
        if takes_line(name) {
            self.eat_while(Class::NotLineEnd);
            return;
        }
        if takes_pipe(name) {
            self.eat_while(Class::Blank);
            self.eat_options(takes_options(name));
            self.eat_output();
            return;
        }
        self.eat_psql_args();
    }

    // Consumes options in parentheses and the blanks after them, if `has_options` and a `(` comes
    // next.
    fn eat_options(&mut self, has_options: bool)
        ensures text { self.new.text ≡ self.old.text }
        ensures at { self.new.at ≡ spec.output_start has_options self.old.text self.old.at }
    {
        if !has_options || self.first() != '(' {
            return;
        }
        if self.eat_psql_options() {
            self.eat_while(Class::Blank);
        }
    }

    // Consumes the target of the output: a pipe, which takes the rest of the line, or arguments.
    fn eat_output(&mut self)
        ensures text { self.new.text ≡ self.old.text }
        ensures at { self.new.at ≡ spec.output_end self.old.text self.old.at }
    {
        if self.first() == '|' {
            self.eat_while(Class::NotLineEnd);
            return;
        }
        self.eat_psql_args();
    }
}
