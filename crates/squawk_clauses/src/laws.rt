//! Laws of the definitions, for proofs: functions that do nothing, each with a law as its contract.
ghost use Rattle.squawk_clauses.specs.Divided as divided;
ghost use Rattle.squawk_clauses.specs.Laws as law;

/// The steps of the clause grammar are a tree of the kinds, and without the nodes of clauses they
/// are the steps of the plain grammar.
pub fn clauses_add_only_nodes()
    ensures lawful { law.ClausesAreLawful }
    ensures plain { law.StepsWithoutClauses }
{}

/// The kinds of a `SELECT` statement before the token that ends it are some in no clause, and then
/// its clauses, and have the steps of these. The token that ends it is in no clause.
pub fn clauses_divide_statements()
    ensures divided { divided.ClausesDivideStatements }
    ensures ending { divided.EndingTokenIsInNoClause }
{}

/// Without the nodes of clauses the parse of tokens by the clause grammar has the steps of the
/// parse into statements. Both have the same errors, and the same children of the root.
pub fn clause_parses_are_plain()
    ensures steps { law.TreeWithoutClauses }
    ensures errors { law.ErrorsStay }
    ensures children { law.RootChildrenStay }
{}
