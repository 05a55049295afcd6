//! What an argument of a command is, and how `clap` hears of it.
use crate::range::{FROM_ONE, RANKS_RANGE, Range, ShownRange};
use clap::{Arg, ArgAction, Command};
use std::alloc::{AllocError, Global};

/// A command of the program, and what its help says.
#[derive(Clone, Copy)]
pub struct CommandForm {
    pub name: &'static str,
    pub about: &'static str,
    /// What stands behind its words.
    pub help: &'static str,
    pub arguments: &'static [Argument],
}

/// An argument of a command.
#[derive(Clone, Copy)]
pub struct Argument {
    /// An option has it behind two hyphens.
    pub name: &'static str,
    /// How a help calls what is given.
    pub value: &'static str,
    pub help: &'static str,
    pub given: ArgumentKind,
    pub is_required: bool,
    /// No help has it.
    pub is_hidden: bool,
    /// Which option has to be there too.
    pub with: Option<&'static str>,
    /// Of which options none may be there too.
    pub without: &'static [&'static str],
}

/// What is given for an argument.
#[derive(Clone, Copy)]
pub enum ArgumentKind {
    /// A file that stands at its place.
    File,
    /// Nothing: the option is there or not.
    Nothing,
    /// The file or the word of an option.
    Text,
    /// A number in this range.
    Number(Range),
    /// The same, and helps show its default.
    Shown(ShownRange),
}

/// A file that stands at its place, and has to.
pub const FILE: Argument = Argument {
    name: "",
    value: "",
    help: "",
    given: ArgumentKind::File,
    is_required: true,
    is_hidden: false,
    with: None,
    without: &[],
};

/// An option that is given nothing.
pub const FLAG: Argument = Argument {
    given: ArgumentKind::Nothing,
    is_required: false,
    ..FILE
};

/// An option that is given a file.
pub const FILE_OF: Argument = Argument {
    value: "FILE",
    given: ArgumentKind::Text,
    is_required: false,
    ..FILE
};

/// An option that is given a number from 1 to 1000000000.
pub const NUMBER: Argument = Argument {
    given: ArgumentKind::Number(FROM_ONE),
    is_required: false,
    ..FILE
};

/// The number of ranks.
pub const RANKS: Argument = Argument {
    name: "ranks",
    value: "N",
    help: "The number of ranks, 1 to 16",
    given: ArgumentKind::Number(RANKS_RANGE),
    is_required: true,
    ..NUMBER
};

impl Argument {
    // The same for `clap`.
    fn made<'a>(&self, alloc: Global) -> Result<Arg<'a>, AllocError> {
        let argument = Arg::new(alloc, self.name)
            .help(self.help)
            .required(self.is_required)
            .hide(self.is_hidden);
        required_by(self.given(argument), self.with)?.conflicts_with_all(self.without)
    }

    fn given<'a>(&self, argument: Arg<'a>) -> Arg<'a> {
        match self.given {
            ArgumentKind::File => self.value(argument),
            ArgumentKind::Nothing => argument.long(self.name).action(ArgAction::SetTrue),
            ArgumentKind::Text => self.option(argument),
            ArgumentKind::Number(range) => range.made(self.option(argument)),
            ArgumentKind::Shown(numbers) => numbers
                .range
                .made(self.option(argument))
                .default_value(numbers.default),
        }
    }

    fn option<'a>(&self, argument: Arg<'a>) -> Arg<'a> {
        self.value(argument).long(self.name)
    }

    fn value<'a>(&self, argument: Arg<'a>) -> Arg<'a> {
        argument.value_name(self.value).action(ArgAction::Set)
    }
}

fn required_by<'a>(argument: Arg<'a>, other: Option<&'static str>) -> Result<Arg<'a>, AllocError> {
    match other {
        Some(name) => argument.requires_arg(name),
        None => Ok(argument),
    }
}

impl CommandForm {
    /// The same for `clap`. An error means out of memory.
    pub fn made<'a>(&self, alloc: Global) -> Result<Command<'a>, AllocError> {
        let mut command = Command::new(alloc, self.name)
            .about(self.about)
            .after_help(self.help);
        for each in self.arguments {
            command = with_argument(command, each.made(alloc))?;
        }
        Ok(command)
    }
}

// Written out, the drop is one call and not the whole drop of a command.
fn with_argument<'a>(
    command: Command<'a>,
    argument: Result<Arg<'a>, AllocError>,
) -> Result<Command<'a>, AllocError> {
    match argument {
        Ok(argument) => command.arg(argument),
        Err(error) => {
            drop(command);
            Err(error)
        }
    }
}
