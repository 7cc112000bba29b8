//! The calls that cases are of.

use crate::running;
use flame_case_checks::answer_check;
use flame_case_codes::answer_machine;
use flame_case_files::Case;
use flame_case_loads::answer_load;
use flame_case_models::{
    answer_flat, answer_model, answer_names, answer_plan, answer_shape, answer_wide,
};
use flame_case_nodes::{answer_gather, answer_part};
use flame_case_populations::answer_population;
use flame_case_programs::{answer_code, answer_graph, answer_outcome};
use flame_case_runs::{answer_core, answer_flow, answer_iteration, answer_orders};
use flame_case_texts::{answer_expression, answer_order, answer_tokens, answer_trees};
use flame_case_views::{answer_choices, answer_conditions, answer_indexes, answer_views};
use std::alloc::{AllocError, Global};
use std::sync::Wait;
use std::thread::Threads;

/// A call.
#[derive(Clone, Copy)]
pub(crate) enum Kind {
    /// `flame_lex::lex`
    Lex,
    /// `flame_top::flame`
    Run,
    /// `flame_words::order`
    Words,
    /// `flame_xmml::model_of`, whether it has a fault
    Shape,
    /// `flame_xmml::model_of`, with the model
    Model,
    /// `flame_xmml::wide_of`
    Wide,
    /// `flame_nest::flatten`
    Nest,
    /// `flame_names::names`
    Names,
    /// `flame_sense::evaluate`, and `flame_machine::run` of the program's code
    Outcome,
    /// `flame_report::code_text`
    Code,
    /// `flame_report::graph_text`
    Graph,
    /// `flame_runner::PlainRunner`
    Iteration,
    /// The calls of `flame_core::Core`
    Core,
    /// The calls of `flame_flow::Flow`
    Flow,
    /// The same, in many orders, beside `flame_runner::iterate`
    Orders,
    /// `flame_nodes::part`
    Part,
    /// `flame_nodes::gather`
    Gather,
    /// `flame_popfile::population`, and `flame_popfile::text` and `flame_popfile::line` of what it gives
    Population,
    /// `flame_machine::run`
    Machine,
    /// `flame_load::load`
    Load,
    /// `flame_depend::edges` and `flame_depend::plan`
    Plan,
    /// The conditions, filters and keys of `flame_cond`
    Condition,
    /// `flame_index::Index`
    Index,
    /// `flame_view::View`
    View,
    /// The calls of `flame_pool`
    Choice,
    /// `flame_expr::parse_expr`
    Expression,
    /// `flame_parse::parse`
    Parse,
    /// `flame_check::check`
    Check,
}

/// The call that the file's folder names.
pub(crate) fn kind_of(file: &str) -> Option<Kind> {
    match file.split('/').rev().nth(1)? {
        "lex" => Some(Kind::Lex),
        "run" => Some(Kind::Run),
        "words" => Some(Kind::Words),
        "shape" => Some(Kind::Shape),
        "model" => Some(Kind::Model),
        "wide" => Some(Kind::Wide),
        "nest" => Some(Kind::Nest),
        "names" => Some(Kind::Names),
        "outcome" => Some(Kind::Outcome),
        "code" => Some(Kind::Code),
        "graph" => Some(Kind::Graph),
        "iteration" => Some(Kind::Iteration),
        "core" => Some(Kind::Core),
        "flow" => Some(Kind::Flow),
        "orders" => Some(Kind::Orders),
        "part" => Some(Kind::Part),
        "gather" => Some(Kind::Gather),
        "population" => Some(Kind::Population),
        "machine" => Some(Kind::Machine),
        "load" => Some(Kind::Load),
        "plan" => Some(Kind::Plan),
        "condition" => Some(Kind::Condition),
        "index" => Some(Kind::Index),
        "view" => Some(Kind::View),
        "choice" => Some(Kind::Choice),
        "expression" => Some(Kind::Expression),
        "parse" => Some(Kind::Parse),
        "check" => Some(Kind::Check),
        _ => None,
    }
}

/// What the call answers to the case, as a text.
pub(crate) fn answer(
    rt: &(impl Threads + Wait + Sync),
    alloc: Global,
    kind: Kind,
    case: &Case,
) -> Result<String, AllocError> {
    match kind {
        Kind::Lex => answer_tokens(alloc, case),
        Kind::Run => running::answer(rt, alloc, case),
        Kind::Words => answer_order(alloc, case),
        Kind::Shape => answer_shape(alloc, case),
        Kind::Model => answer_model(alloc, case),
        Kind::Wide => answer_wide(alloc, case),
        Kind::Nest => answer_flat(alloc, case),
        Kind::Names => answer_names(alloc, case),
        Kind::Outcome => answer_outcome(alloc, case),
        Kind::Code => answer_code(alloc, case),
        Kind::Graph => answer_graph(alloc, case),
        Kind::Iteration => answer_iteration(rt, alloc, case),
        Kind::Core => answer_core(alloc, case),
        Kind::Flow => answer_flow(alloc, case),
        Kind::Orders => answer_orders(alloc, case),
        Kind::Part => answer_part(alloc, case),
        Kind::Gather => answer_gather(alloc, case),
        Kind::Population => answer_population(alloc, case),
        Kind::Machine => answer_machine(alloc, case),
        Kind::Load => answer_load(alloc, case),
        Kind::Plan => answer_plan(alloc, case),
        Kind::Condition => answer_conditions(alloc, case),
        Kind::Index => answer_indexes(alloc, case),
        Kind::View => answer_views(alloc, case),
        Kind::Choice => answer_choices(rt, alloc, case),
        Kind::Expression => answer_expression(alloc, case),
        Kind::Parse => answer_trees(alloc, case),
        Kind::Check => answer_check(alloc, case),
    }
}
