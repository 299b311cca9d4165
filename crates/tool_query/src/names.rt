//! How it is told that a word is no query.

ghost use Rattle.std.specs.Prelude.{◌≡◌};
ghost use Rattle.tool_query.specs.Names.{fault_name, no_query_name};

use crate::no_query::NoQuery;
use pipe_aggs::QueryFault;

/// The name of a fault of a query.
fn fault_name(fault: QueryFault) -> &'static str
    ensures { result.now ≡ fault_name fault }
{
    match fault {
        QueryFault::DoubleName => "DoubleName",
        QueryFault::NoKey => "NoKey",
        QueryFault::BadNode => "BadNode",
        QueryFault::UnknownColumn => "UnknownColumn",
        QueryFault::IllTyped => "IllTyped",
        QueryFault::KeyHasAggregate => "KeyHasAggregate",
        QueryFault::NotConvertible => "NotConvertible",
        QueryFault::SumOfDate => "SumOfDate",
        QueryFault::DoubleOutput => "DoubleOutput",
        QueryFault::NegativeSlice => "NegativeSlice",
    }
}

/// The name of what is wrong with a word that is no query.
pub fn no_query_name(why: NoQuery) -> &'static str
    ensures { result.now ≡ no_query_name why }
{
    match why {
        NoQuery::NotJson => "json",
        NoQuery::NotAQuery => "shape",
        NoQuery::Faulty(fault) => fault_name(fault),
    }
}
