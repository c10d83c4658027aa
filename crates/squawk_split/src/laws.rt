//! Laws of the definitions of COPY statements and their data, each the clause of a function that
//! does nothing.
ghost use Rattle.squawk_split.specs.CopyData.{DataEndsAtFirstMarker, DataWithoutMarkerIsAll};
ghost use Rattle.squawk_split.specs.CopyFromStdin.{FromStdinIsFound, OnlyFromStdinIsFound};

/// COPY data ends with the first end-of-data marker, or else with the text.
pub fn data_ends_at_first_marker()
    ensures ends { DataEndsAtFirstMarker }
    ensures all { DataWithoutMarkerIsAll }
{}

/// The definition of COPY statements that data follows finds a FROM and a STDIN directly after it,
/// both outside all parentheses, and nothing else.
pub fn from_stdin_is_found()
    ensures found { FromStdinIsFound }
    ensures only { OnlyFromStdinIsFound }
{}
