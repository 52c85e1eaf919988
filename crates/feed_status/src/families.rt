//! What each metric is written with, in the text format of Prometheus (version 0.0.4).

use std::fmt;
use std::fmt::Write;

/// What a number counts.
#[derive(Clone, Copy)]
pub(crate) enum Unit {
    Things,
    /// It is printed as seconds.
    Milliseconds,
    /// It is printed as seconds.
    Microseconds,
}

/// The value of a metric.
#[derive(Clone, Copy)]
pub(crate) struct Value(pub(crate) u64, pub(crate) Unit);

impl fmt::Display for Value {
    fn fmt<W: fmt::Write>(&self, f: &mut fmt::Formatter<W>) -> fmt::Result {
        let Value(number, unit) = *self;
        match unit {
            Unit::Things => write!(f, "{number}"),
            Unit::Milliseconds => write!(f, "{}.{:03}", number / 1_000, number % 1_000),
            Unit::Microseconds => write!(f, "{}.{:06}", number / 1_000_000, number % 1_000_000),
        }
    }
}

/// The text of a label: a backslash, a quotation mark and a line feed are escaped.
#[derive(Clone, Copy)]
pub(crate) struct Escaped<'a>(pub(crate) &'a str);

impl fmt::Display for Escaped<'_> {
    fn fmt<W: fmt::Write>(&self, f: &mut fmt::Formatter<W>) -> fmt::Result {
        for character in self.0.chars() {
            match character {
                '\\' => f.write_str("\\\\"),
                '"' => f.write_str("\\\""),
                '\n' => f.write_str("\\n"),
                other => f.write_char(other),
            }?;
        }
        Ok(())
    }
}

/// A metric with one value: what stands before it, and what its number counts.
#[derive(Clone, Copy)]
pub(crate) struct Family {
    pub(crate) name: &'static str,
    pub(crate) kind: &'static str,
    pub(crate) unit: Unit,
    pub(crate) help: &'static str,
}

/// Appends a metric with one value.
pub(crate) fn put_metric<W: fmt::Write>(
    family: &Family,
    number: u64,
    f: &mut fmt::Formatter<W>,
) -> fmt::Result {
    let (name, kind, help) = (family.name, family.kind, family.help);
    let value = Value(number, family.unit);
    write!(
        f,
        "# HELP {name} {help}\n# TYPE {name} {kind}\n{name} {value}\n"
    )
}

/// Appends metrics with one value each, one after another.
pub(crate) fn put_all<W: fmt::Write>(
    families: &[Family],
    numbers: &[u64],
    f: &mut fmt::Formatter<W>,
) -> fmt::Result {
    for (family, number) in families.iter().zip(numbers.iter()) {
        put_metric(family, *number, f)?;
    }
    Ok(())
}
