//! Options as a table has them: what stands after an option's name, whether it has to be given, and
//! which other option it has to do with. A table is a `static`: the value of a `const` would be
//! proved again in each function that names it.
ghost use Rattle.std.specs.Prelude.{◌≡◌, ◌∷◌, List, map, false, IfOk};
ghost use Rattle.clap.specs.Words.{AddsConflicts, App, Rule, app_of, rule_of};
ghost use Rattle.feed_arguments.specs.Declaring.{IsDeclared, rule_by};
ghost use Rattle.feed_arguments.specs.Declaring.{value_rule};
ghost use Rattle.feed_arguments.specs.Options.{with_rules};
ghost use Rattle.feed_arguments.specs.declared.words.declaring.Tie.TheVariants as tie;

use clap::builder::ValueParser;
use clap::{Arg, ArgAction, Command};
use std::alloc::{AllocError, Global};

/// What stands after an option's name, with the word that the help has for it.
#[derive(Clone, Copy)]
pub(super) enum Value {
    /// Nothing.
    Nothing,
    /// Any text.
    Text(&'static str),
    /// Any text, which stands without the name.
    Alone(&'static str),
    /// A number, from the least to the most.
    Number(&'static str, u64, u64),
}

/// What an option has to do with another one.
#[derive(Clone, Copy)]
pub(super) enum Tie {
    /// Nothing.
    Free,
    /// It needs the other one.
    Needs(&'static str),
    /// It has to be given unless the other one is.
    Unless(&'static str),
    /// It may not be given with the other one.
    Excludes(&'static str),
    /// It may not be given with this one, nor with any of those.
    Replaces(&'static str, &'static [&'static str]),
}

/// An option.
#[derive(Clone, Copy)]
pub(super) struct Declared {
    pub(super) name: &'static str,
    pub(super) value: Value,
    pub(super) help: &'static str,
    /// Its value where it is not given.
    pub(super) default: Option<&'static str>,
    /// Whether it has to be given.
    pub(super) required: bool,
    pub(super) tie: Tie,
}

/// An option that has no value, may be left out, and has to do with no other one: each row says
/// its name, its help, and what else it has.
pub(super) const PLAIN: Declared = Declared {
    name: "",
    value: Value::Nothing,
    help: "",
    default: None,
    required: false,
    tie: Tie::Free,
};

impl Declared {
    /// The option as clap has it, but for its tie.
    fn untied(self, alloc: Global) -> Arg<'static>
        ensures rule { rule_of result ≡ rule_by (record self { tie = tie.Free }) }
        ensures local { result.global ≡ false }
    {
        let option = valued(alloc, self.name, self.value)
            .help(self.help)
            .required(self.required);
        match self.default {
            Some(default) => option.default_value(default),
            None => option,
        }
    }

    /// The option as clap has it, with its ties to other options: these and no others.
    fn arg(self, alloc: Global) -> Result<Arg<'static>, AllocError>
        ensures { IfOk result (λ option. IsDeclared self option) }
    {
        let option = self.untied(alloc);
        match self.tie {
            Tie::Free => Ok(option),
            Tie::Needs(other) => option.requires_arg(other),
            Tie::Unless(other) => option.required_unless_present(other),
            Tie::Excludes(other) => option.conflicts_with(other),
            Tie::Replaces(first, others) => replacing(option, first, others),
        }
    }
}

/// The option, which may not be given with any of these.
fn replacing(
    option: Arg<'static>,
    first: &'static str,
    others: &'static [&'static str],
) -> Result<Arg<'static>, AllocError>
    ensures { IfOk result (λ r. AddsConflicts option.entry r (first.entry ∷ others.now)) }
{
    let option = option.conflicts_with(first)?;
    option.conflicts_with_all(others)
}

/// An option of this name, with such a value.
fn valued(alloc: Global, name: &'static str, value: Value) -> Arg<'static>
    ensures rule { rule_of result ≡ value_rule name.entry.now value }
    ensures local { result.global ≡ false }
{
    let option = Arg::new(alloc, name);
    match value {
        Value::Nothing => option.long(name).action(ArgAction::SetTrue),
        Value::Text(value) => option.long(name).value_name(value),
        Value::Alone(value) => option.value_name(value),
        Value::Number(value, least, most) => option
            .long(name)
            .value_name(value)
            .value_parser(ValueParser::unsigned(least, most)),
    }
}

/// A command with these options, too, in order; none where there was none.
pub(super) fn add_options<'a>(
    alloc: Global,
    command: Result<Command<'a>, AllocError>,
    options: &[Declared],
) -> Result<Command<'a>, AllocError>
    ensures { (app : App) → (rules : List Rule) → IfOk command.entry (λ c. app_of c ≡ app)
        → map rule_by options.now ≡ rules
        → IfOk result (λ c. app_of c ≡ with_rules app rules) }
{
    let mut command = command?;
    for declared in options {
        let option = declared.arg(alloc)?;
        command = command.arg(option)?;
    }
    Ok(command)
}

/// The same, where they stand under a heading in the command's help.
pub(super) fn add_section<'a>(
    alloc: Global,
    command: Result<Command<'a>, AllocError>,
    heading: &'a str,
    options: &[Declared],
) -> Result<Command<'a>, AllocError>
    ensures { (app : App) → (rules : List Rule) → IfOk command.entry (λ c. app_of c ≡ app)
        → map rule_by options.now ≡ rules
        → IfOk result (λ c. app_of c ≡ with_rules app rules) }
{
    let command = command?.next_help_heading(heading);
    add_options(alloc, Ok(command), options)
}
