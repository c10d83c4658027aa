//! Laws of the definitions of scripts, each the clause of a function that does nothing.
ghost use Rattle.squawk_script.specs.Laws.{NewTextsAreShort, NewTextsAreUtf8, RecordsBeginBytes, RecordsStandAlone};

/// The new texts of a script, and a byte for each of its records, are together no longer than the
/// script. So no edit of a script within a limit makes a text above it.
pub fn new_texts_are_short()
    ensures { NewTextsAreShort }
{}

/// The records that begin a text are those of a script's form, as many as there are.
pub fn records_have_their_form()
    ensures begin { RecordsBeginBytes }
    ensures alone { RecordsStandAlone }
{}

/// The new texts of a script are UTF-8, so each of them ends at a character boundary of the script.
pub fn new_texts_are_utf8()
    ensures { NewTextsAreUtf8 }
{}
