//! The kinds of TOML's values.

ghost use Rattle.std.specs.Prelude.{◌≡◌};
ghost use Rattle.toml.specs.View.{view};
ghost use Rattle.suffix_routes.specs.Kinds.{kind_of};

use std::fmt;
use toml::Value;

/// The kind of a value of TOML.
#[derive(Clone, Copy, Debug, PartialEq, Eq)]
pub enum Kind {
    /// A string.
    String,
    /// An integer.
    Integer,
    /// A float.
    Float,
    /// A boolean.
    Boolean,
    /// A date, a time, or both.
    Datetime,
    /// An array.
    Array,
    /// A table.
    Table,
}

impl Kind {
    /// The kind of a value.
    pub(crate) fn of(value: &Value) -> Kind
        ensures { result ≡ kind_of (view value.now) }
    {
        match value {
            Value::String(_) => Kind::String,
            Value::Integer(_) => Kind::Integer,
            Value::Float(_) => Kind::Float,
            Value::Boolean(_) => Kind::Boolean,
            Value::Datetime(_) => Kind::Datetime,
            Value::Array(_) => Kind::Array,
            Value::Table(_) => Kind::Table,
        }
    }
}

impl fmt::Display for Kind {
    fn fmt<W: fmt::Write>(&self, f: &mut fmt::Formatter<W>) -> fmt::Result {
        f.write_str(match self {
            Kind::String => "a string",
            Kind::Integer => "an integer",
            Kind::Float => "a float",
            Kind::Boolean => "a boolean",
            Kind::Datetime => "a date or a time",
            Kind::Array => "an array",
            Kind::Table => "a table",
        })
    }
}
