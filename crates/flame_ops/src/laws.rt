//! Laws of the operators and of tables. Each function is its contract: it computes nothing.

ghost use Rattle.flame_ops.specs.Division.{QuotientAndRemainder, RemainderIsLess, RemainderHasSign};
ghost use Rattle.flame_ops.specs.Overflows.{AnswersAreInts, DivisionOverflows};
ghost use Rattle.flame_ops.specs.SpellingLaws.{LongestIsUnique, NumberIsUnique};

/// `(a / b) * b + a % b` is `a`, and the quotient is truncated towards zero (C standard, 6.5.5).
pub fn truncated_division()
    ensures makes_up { QuotientAndRemainder }
    ensures less { RemainderIsLess }
    ensures sign { RemainderHasSign }
{}

/// What `apply` gives is a number of `int`, and `/` and `%` overflow at -2147483648 by -1 alone.
pub fn held_answers()
    ensures held { AnswersAreInts }
    ensures division { DivisionOverflows }
{}

/// At one place at most one spelling of a table is the longest, and a word has at most one number.
pub fn one_number()
    ensures longest { LongestIsUnique }
    ensures number { NumberIsUnique }
{}
