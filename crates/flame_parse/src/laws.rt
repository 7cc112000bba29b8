//! Laws of the grammar. Each function is its contract: it computes nothing.

ghost use Rattle.flame_parse.specs.ParseLaws.{OneUnit, FilesAreMatched, FilesAreRead};

/// A list of tokens has at most one tree as a function file.
pub fn one_unit()
    ensures { OneUnit }
{}

/// Tokens up to others are function definitions exactly where steps of the grammar match them.
pub fn matched_files()
    ensures { FilesAreMatched }
{}

/// Every list of tokens is a function file, or too deep, or has the place where its longest prefix of one ends.
pub fn read_files()
    ensures { FilesAreRead }
{}
