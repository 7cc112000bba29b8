//! What holds of the code of numbered bodies. A law is its contract: it computes nothing.

ghost use Rattle.flame_code_laws.specs.FaithfulLaws.{ExpressionsRun, ArgumentsRun};
ghost use Rattle.flame_code_laws.specs.FaithfulLaws.{DeclarationsRun, AssignmentsRun, CallStatementsRun, StatementsRun};
ghost use Rattle.flame_code_laws.specs.NumberLaws.{DefinitionsNumbered};
ghost use Rattle.flame_code_laws.specs.CodeOutcomes.{OutcomesRun};

/// The code of an expression that fits, wherever it stands in a code, comes to its end with the expression's value on
/// the stack, or ends in the expression's fault, from each configuration that holds what the expression reads.
pub fn expressions_run()
    ensures { ExpressionsRun }
{}

/// The code of arguments that fit comes to its end with their numbers on the stack, in order, or ends in their first
/// fault.
pub fn arguments_run()
    ensures { ArgumentsRun }
{}

/// The code of a declaration that fits comes to what the declaration comes to: to its end, with one local more for each
/// item, or to a fault. Calls of helpers end as the body's answers say.
pub fn declarations_run()
    ensures { DeclarationsRun }
{}

/// The code of an assignment that fits comes to what the assignment comes to: to its end, with what is set, or to a
/// fault. Calls of helpers end as the body's answers say.
pub fn assignments_run()
    ensures { AssignmentsRun }
{}

/// The code of a call statement that fits comes to what the statement comes to: it sets, sends, bears or calls a helper,
/// or comes to a fault. Calls of helpers end as the body's answers say.
pub fn call_statements_run()
    ensures { CallStatementsRun }
{}

/// The code of statements that fit, whose locals are numbered rightly, comes to what the statements come to: to its end,
/// to where `break` or `continue` goes, to a returned value, or to a fault; with the same memory, messages, births and
/// fuel. Calls of helpers end as the body's answers say.
pub fn statements_run()
    ensures { StatementsRun }
{}

/// The code of the body of a function means the body's outcome and no other: with the codes of helper bodies as its
/// helpers, from each entry that fits it, where loops over its inputs give the rows of the entry.
pub fn outcomes_run()
    ensures { OutcomesRun }
{}

/// The locals of each C function's body have the numbers that their places give, behind its parameters, as
/// `StatementsRun` supposes of statements. It is so with check faults too.
pub fn definitions_are_numbered()
    ensures { DefinitionsNumbered }
{}
