//! The roles of columns.

ghost use Rattle.std.specs.Prelude.{◌≡◌};
ghost use Rattle.lavzimo_words.specs.Roles as roles;

use pipe_columns::DataType;
use pipe_exprs::is_integer;

/// What is asked of a column: that it is a key, or what the rows of a group have of it.
#[derive(Clone, Copy, Debug, PartialEq, Eq)]
pub enum Role {
    /// A key.
    Key,
    /// How many rows there are, of no column.
    Rows,
    /// How many values there are.
    Values,
    /// The exact sum.
    Sum,
    /// The mean.
    Mean,
    /// The least value.
    Least,
    /// The greatest value.
    Greatest,
    /// The first value.
    First,
    /// The last value.
    Last,
}

impl Role {
    /// The option that asks for it.
    pub(crate) fn option(self) -> &'static str
        ensures { result.now ≡ roles.option_of self }
    {
        match self {
            Role::Key => "by",
            Role::Rows => "count",
            Role::Values => "count-of",
            Role::Sum => "sum",
            Role::Mean => "mean",
            Role::Least => "min",
            Role::Greatest => "max",
            Role::First => "first",
            Role::Last => "last",
        }
    }

    /// What stands before a column's name where no other name is given.
    pub(crate) fn prefix(self) -> &'static str
        ensures { result.now ≡ roles.prefix_of self }
    {
        match self {
            Role::Key => "",
            Role::Rows => "count",
            Role::Values => "count_of_",
            Role::Sum => "sum_",
            Role::Mean => "mean_",
            Role::Least => "min_",
            Role::Greatest => "max_",
            Role::First => "first_",
            Role::Last => "last_",
        }
    }

    /// The role that an option beside `--by` asks for.
    pub(crate) fn named(name: &str) -> Option<Role>
        ensures { result ≡ roles.role_named name.now }
    {
        match name {
            "count" => Some(Role::Rows),
            "count-of" => Some(Role::Values),
            "sum" => Some(Role::Sum),
            "mean" => Some(Role::Mean),
            "min" => Some(Role::Least),
            "max" => Some(Role::Greatest),
            "first" => Some(Role::First),
            "last" => Some(Role::Last),
            _ => None,
        }
    }

    pub(crate) fn is_rows(self) -> bool
        ensures { result ≡ roles.is_rows self }
    {
        matches!(self, Role::Rows)
    }

    pub(crate) fn is_key(self) -> bool
        ensures { result ≡ roles.is_key self }
    {
        matches!(self, Role::Key)
    }

    pub(crate) fn is_mean(self) -> bool
        ensures { result ≡ roles.is_mean self }
    {
        matches!(self, Role::Mean)
    }

    /// Whether it adds or compares numbers.
    pub(crate) fn is_of_numbers(self) -> bool
        ensures { result ≡ roles.is_of_numbers self }
    {
        self.has_halves() || self.is_compared()
    }

    /// Whether it compares values.
    pub(crate) fn is_compared(self) -> bool
        ensures { result ≡ roles.is_compared self }
    {
        matches!(self, Role::Least | Role::Greatest)
    }

    /// Whether it has two columns in an answer, a sum and a count.
    pub(crate) fn has_halves(self) -> bool
        ensures { result ≡ roles.has_halves self }
    {
        matches!(self, Role::Sum | Role::Mean)
    }

    /// Whether a column of a type may have it.
    pub(crate) fn suits(self, dtype: DataType) -> bool
        ensures { result ≡ roles.suits self dtype }
    {
        match self {
            Role::Key | Role::Rows | Role::Values | Role::First | Role::Last => true,
            Role::Sum | Role::Mean => is_integer(dtype) || dtype == DataType::Boolean,
            Role::Least | Role::Greatest => is_integer(dtype) || dtype == DataType::Date,
        }
    }
}
