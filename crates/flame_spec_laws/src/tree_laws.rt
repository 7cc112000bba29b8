//! Laws of what trees are seen as. A law is its contract: it computes nothing.

ghost use Rattle.flame_spec_laws.specs.TreeLaws.{ExpressionsAreTold, StatementsAreTold, StatementsAreSeen};

/// Expressions that definitions see as the same are the same, and so are statements.
pub fn trees_are_told()
    ensures expressions { ExpressionsAreTold }
    ensures statements { StatementsAreTold }
{}

/// Whatever statements definitions may see are what some statements are seen as.
pub fn trees_are_seen()
    ensures { StatementsAreSeen }
{}
