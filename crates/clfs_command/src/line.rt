// The command line after FOLDER, as clap takes it.
ghost use Rattle.std.specs.Prelude.{◌≡◌, IfOk, false};
ghost use Rattle.clap.specs.Words.{app_of, rule_of, with_subcommand};
ghost use Rattle.clfs_command.specs.Door.{door_line};
ghost use Rattle.clfs_command.specs.Line.{option, needed, with_default, flag, word, words, share_line, command_named, command_line};
ghost use Rattle.clfs_command.specs.Forms.{rule_of_form, line_of, bare_line};

use crate::commands::{CommandForm, WordForm, WordKind, commands, door_form, share_form};
use clap::{Arg, ArgAction, Command};
use std::alloc::{AllocError, Global};

// A command that takes no word that asks for help: the help is the program's own.
fn command_named<'a>(alloc: Global, name: &'a str, about: &'a str) -> Command<'a>
    ensures { app_of result ≡ command_named name.entry.now }
{
    Command::new(alloc, name)
        .about(about)
        .disable_help_flag(true)
}

// The option `--name`. The help says what it is, and what its value is called.
fn option<'a>(alloc: Global, name: &'a str, value: &'a str, help: &'a str) -> Arg<'a>
    ensures rule { rule_of result ≡ option name.entry.now }
    ensures local { result.global ≡ false }
{
    Arg::new(alloc, name)
        .long(name)
        .value_name(value)
        .help(help)
}

// An option that has to be there.
fn needed<'a>(alloc: Global, name: &'a str, value: &'a str, help: &'a str) -> Arg<'a>
    ensures rule { rule_of result ≡ needed name.entry.now }
    ensures local { result.global ≡ false }
{
    option(alloc, name, value, help).required(true)
}

// An option that has this value where it isn't there.
fn with_default<'a>(
    alloc: Global,
    name: &'a str,
    value: &'a str,
    default: &'a str,
    help: &'a str,
) -> Arg<'a>
    ensures rule { rule_of result ≡ with_default name.entry.now default.entry.now }
    ensures local { result.global ≡ false }
{
    option(alloc, name, value, help).default_value(default)
}

// The flag `--name`, which has no value.
fn flag<'a>(alloc: Global, name: &'a str, help: &'a str) -> Arg<'a>
    ensures rule { rule_of result ≡ flag name.entry.now }
    ensures local { result.global ≡ false }
{
    Arg::new(alloc, name)
        .long(name)
        .help(help)
        .action(ArgAction::SetTrue)
}

// A word that has to be there, after those that come before it.
fn word<'a>(alloc: Global, name: &'a str, help: &'a str) -> Arg<'a>
    ensures rule { rule_of result ≡ word name.entry.now }
    ensures local { result.global ≡ false }
{
    Arg::new(alloc, name).help(help).required(true)
}

// Words of which one has to be there, after all others.
fn words<'a>(alloc: Global, name: &'a str, help: &'a str) -> Arg<'a>
    ensures rule { rule_of result ≡ words name.entry.now }
    ensures local { result.global ≡ false }
{
    word(alloc, name, help).action(ArgAction::Append)
}

// clap's word of this form.
fn word_of<'a>(alloc: Global, form: &WordForm) -> Arg<'a>
    ensures rule { rule_of result ≡ rule_of_form form.now }
    ensures local { result.global ≡ false }
{
    match form.kind {
        WordKind::Optional(value) => option(alloc, form.name, value, form.help),
        WordKind::Needed(value) => needed(alloc, form.name, value, form.help),
        WordKind::Default(value, default) => with_default(
            alloc, form.name, value, default, form.help,
        ),
        WordKind::Flag => flag(alloc, form.name, form.help),
        WordKind::Word => word(alloc, form.name, form.help),
        WordKind::Words => words(alloc, form.name, form.help),
    }
}

/// The line of a command.
pub fn line_of<'a>(alloc: Global, form: &CommandForm) -> Result<Command<'a>, AllocError>
    ensures { IfOk result (λ r. app_of r ≡ line_of form.now) }
{
    let mut line = command_named(alloc, form.name, form.about);
    for word in form.words {
        line = line.arg(word_of(alloc, word))?;
    }
    Ok(line)
}

/// Adds a command to a line as a subcommand.
pub fn with_line<'a>(
    alloc: Global,
    line: Command<'a>,
    form: &CommandForm,
) -> Result<Command<'a>, AllocError>
    ensures { IfOk result (λ r. app_of r ≡ with_subcommand (app_of line.entry) (line_of form.now).top) }
{
    line.subcommand(line_of(alloc, form)?)
}

// The line without its subcommands.
fn bare_line<'a>(alloc: Global) -> Command<'a>
    ensures { app_of result ≡ bare_line }
{
    let about =
        "A log manager: several clients share one log, and each sees its own stream of records";
    command_named(alloc, "clfs", about)
        .no_binary_name(true)
        .disable_help_subcommand(true)
        .subcommand_required(true)
}

/// All of the line, of which the first word names the subcommand.
pub fn command_line<'a>(alloc: Global) -> Result<Command<'a>, AllocError>
    ensures { IfOk result (λ r. app_of r ≡ command_line) }
{
    let mut line = bare_line(alloc);
    for form in commands() {
        line = with_line(alloc, line, form)?;
    }
    Ok(line)
}

/// The line of `share`. It takes the words after its name.
pub fn share_line<'a>(alloc: Global) -> Result<Command<'a>, AllocError>
    ensures { IfOk result (λ r. app_of r ≡ share_line) }
{
    Ok(line_of(alloc, share_form())?.no_binary_name(true))
}

/// The line of `share` by a door. It takes the words after its name.
pub fn door_line<'a>(alloc: Global) -> Result<Command<'a>, AllocError>
    ensures { IfOk result (λ r. app_of r ≡ door_line) }
{
    Ok(line_of(alloc, door_form())?.no_binary_name(true))
}
