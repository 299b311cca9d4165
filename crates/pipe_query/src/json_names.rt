//! What the names in a query stand for.

ghost use Rattle.std.specs.Prelude.{◌≡◌};
ghost use Rattle.pipe_query.specs.JsonNames as spec;
ghost use Rattle.pipe_query.specs.OverNames.{form_over, over_named};

use pipe_aggs::Operator;
use pipe_columns::DataType;

/// What the one member of an expression's object is by its name.
#[derive(Clone, Copy, Debug, PartialEq, Eq)]
pub enum Form {
    Col,
    Lit,
    Cast,
    Op,
    If,
    Alias,
    Len,
    Filter,
    Of(Over),
}

/// What is made of one expression.
#[derive(Clone, Copy, Debug, PartialEq, Eq)]
pub enum Over {
    Sum,
    First,
    Last,
    Mean,
    Min,
    Max,
    Count,
    CountAll,
    Median,
    NUnique,
    Sort,
}

/// The type of a name. Int128 is no type of an input.
pub fn type_named(name: &str) -> Option<DataType>
    ensures { result ≡ spec.type_named name.now }
{
    match name {
        "Boolean" => Some(DataType::Boolean),
        "Int8" => Some(DataType::Int8),
        "Int16" => Some(DataType::Int16),
        "Int32" => Some(DataType::Int32),
        "Int64" => Some(DataType::Int64),
        "UInt8" => Some(DataType::UInt8),
        "UInt16" => Some(DataType::UInt16),
        "UInt32" => Some(DataType::UInt32),
        "UInt64" => Some(DataType::UInt64),
        "Date" => Some(DataType::Date),
        "String" => Some(DataType::String),
        _ => None,
    }
}

/// The operator of a sign.
pub fn sign_named(name: &str) -> Option<Operator>
    ensures { result ≡ spec.sign_named name.now }
{
    match name {
        "+" => Some(Operator::Plus),
        "-" => Some(Operator::Minus),
        "*" => Some(Operator::Multiply),
        "//" => Some(Operator::FloorDivide),
        "%" => Some(Operator::Modulus),
        "==" => Some(Operator::Eq),
        "!=" => Some(Operator::NotEq),
        "<" => Some(Operator::Lt),
        "<=" => Some(Operator::LtEq),
        ">" => Some(Operator::Gt),
        ">=" => Some(Operator::GtEq),
        "and" => Some(Operator::And),
        "or" => Some(Operator::Or),
        _ => None,
    }
}

/// What is made of one expression by a name.
fn over_named(name: &str) -> Option<Over>
    ensures { result ≡ over_named name.now }
{
    match name {
        "sum" => Some(Over::Sum),
        "first" => Some(Over::First),
        "last" => Some(Over::Last),
        "mean" => Some(Over::Mean),
        "min" => Some(Over::Min),
        "max" => Some(Over::Max),
        "count" => Some(Over::Count),
        "count_all" => Some(Over::CountAll),
        "median" => Some(Over::Median),
        "n_unique" => Some(Over::NUnique),
        "sort" => Some(Over::Sort),
        _ => None,
    }
}

/// The form of a name that makes something of one expression.
fn form_over(name: &str) -> Option<Form>
    ensures { result ≡ form_over name.now }
{
    match over_named(name) {
        Some(over) => Some(Form::Of(over)),
        None => None,
    }
}

/// The form of a member's name.
pub fn form_named(name: &str) -> Option<Form>
    ensures { result ≡ spec.form_named name.now }
{
    match name {
        "col" => Some(Form::Col),
        "lit" => Some(Form::Lit),
        "cast" => Some(Form::Cast),
        "op" => Some(Form::Op),
        "if" => Some(Form::If),
        "alias" => Some(Form::Alias),
        "len" => Some(Form::Len),
        "filter" => Some(Form::Filter),
        _ => form_over(name),
    }
}
