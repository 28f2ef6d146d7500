//! The words of a command, as `clap` reads them.

ghost use Rattle.monk_commands.specs.Request.{IsOwnArg, word_rule};

use clap::builder::ValueParser;
use clap::{Arg, ArgAction};
use std::alloc::Global;

/// How a word is written, and how often.
#[derive(Clone, Copy)]
pub(crate) enum Form {
    /// Once or not at all.
    Optional,
    /// Any number of times.
    Several,
    /// Once, and the parser takes it.
    Required(ValueParser<'static>),
    /// An option without a value.
    Flag,
    /// An option with a value of this name, any number of times.
    Repeated(&'static str),
    /// An option with a value of this name, which the parser takes.
    Chosen(&'static str, ValueParser<'static>),
}

/// A word of a command: its name, how it is written, and its help.
#[derive(Clone, Copy)]
pub(crate) struct Word(
    pub(crate) &'static str,
    pub(crate) Form,
    pub(crate) &'static str,
);

impl Word {
    /// Returns the argument of `clap` that reads it.
    pub(crate) fn arg<'a>(self, alloc: Global) -> Arg<'a>
        ensures { IsOwnArg (word_rule self) result }
    {
        let Word(name, form, help) = self;
        let arg = Arg::new(alloc, name).help(help);
        match form {
            Form::Optional => arg,
            Form::Several => arg.action(ArgAction::Append),
            Form::Required(parser) => arg.required(true).value_parser(parser),
            Form::Flag => arg.long(name).action(ArgAction::SetTrue),
            Form::Repeated(value) => arg.long(name).value_name(value).action(ArgAction::Append),
            Form::Chosen(value, parser) => arg.long(name).value_name(value).value_parser(parser),
        }
    }
}
