//! Laws of the grammar. Each function is its contract: it computes nothing.

ghost use Rattle.flame_expr.specs.ExpressionLaws.{ExpressionIsUnique, ExpressionsAreMatched, PlacesAreRead};
ghost use Rattle.flame_expr.specs.LexemeSpellings.{MarksAreSpelled, KeywordsAreSpelled};

/// A list of tokens is at most one expression.
pub fn one_expression()
    ensures { ExpressionIsUnique }
{}

/// Tokens up to others are an expression exactly where steps of the grammar match them.
pub fn matched_expressions()
    ensures { ExpressionsAreMatched }
{}

/// At every place of every list of tokens there is an expression, or a place where its reading stops.
pub fn read_places()
    ensures { PlacesAreRead }
{}

/// The marks and the keywords of the grammar are those that the tables of spellings have at the same numbers.
// ORDER MARKS
pub fn spellings()
    ensures marks { MarksAreSpelled }
    ensures keywords { KeywordsAreSpelled }
{}
