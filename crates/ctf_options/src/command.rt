//! The command line of the program, as clap reads it.

ghost use Rattle.std.specs.Prelude.{◌≡◌, [], MatchResult, map, true, string_bytes, IfOk};
ghost use Rattle.std.specs.List.{list_any};
ghost use Rattle.clap.specs.Words.{app_of, with_rule, found_of, rows_of};
ghost use Rattle.ctf_options.specs.Command as commands;

use crate::usage::Usage;
use clap::error::ErrorKind;
use clap::{Arg, ArgAction, ArgMatches, Command};
use std::alloc::{AllocError, Global};

/// Adds an option with one value.
fn with_option<'a>(
    alloc: Global,
    command: Command<'a>,
    name: &'a str,
) -> Result<Command<'a>, AllocError>
    ensures { IfOk result (λ after.
        app_of after ≡ with_rule (app_of command.entry) (commands.option_rule name.entry.now)) }
{
    let option = Arg::new(alloc, name).long(name).action(ArgAction::Set);
    command.arg(option)
}

/// Adds an option without a value.
fn with_flag<'a>(
    alloc: Global,
    command: Command<'a>,
    name: &'a str,
) -> Result<Command<'a>, AllocError>
    ensures { IfOk result (λ after.
        app_of after ≡ with_rule (app_of command.entry) (commands.flag_rule name.entry.now)) }
{
    let flag = Arg::new(alloc, name).long(name).action(ArgAction::SetTrue);
    command.arg(flag)
}

/// Adds the folders of traces, one or more, to the command.
fn with_dirs<'a>(alloc: Global, command: Command<'a>) -> Result<Command<'a>, AllocError>
    ensures { IfOk result (λ after. app_of after ≡
        with_rule (app_of command.entry) commands.dirs_rule) }
{
    let dirs = Arg::new(alloc, "dirs")
        .action(ArgAction::Append)
        .num_args(1..)
        .required(true);
    command.arg(dirs)
}

/// The command `bt-ctf` with its options.
fn bt_ctf<'a>(alloc: Global) -> Result<Command<'a>, AllocError>
    ensures { IfOk result (λ command. app_of command ≡ commands.bt_ctf) }
{
    let command = Command::new(alloc, "bt-ctf");
    let command = with_option(alloc, command, "begin")?;
    let command = with_option(alloc, command, "end")?;
    let command = with_option(alloc, command, "timerange")?;
    let command = with_flag(alloc, command, "clock-cycles")?;
    let command = with_flag(alloc, command, "clock-date")?;
    let command = with_flag(alloc, command, "clock-gmt")?;
    let command = with_flag(alloc, command, "clock-seconds")?;
    let command = with_flag(alloc, command, "no-delta")?;
    let command = with_option(alloc, command, "zone")?;
    let command = with_option(alloc, command, "clock-offset")?;
    let command = with_option(alloc, command, "clock-offset-ns")?;
    with_dirs(alloc, command)
}

/// Whether a word asks for help.
fn is_help(word: &str) -> bool
    ensures { result ≡ commands.is_help word.now }
{
    word == "--help" || matches!(word.as_bytes(), [b'-', b'h', ..])
}

/// Whether one of the words asks for help.
fn any_asks(words: &[String]) -> bool
    ensures { result ≡ list_any (λ word. commands.is_help (string_bytes word)) words.now }
{
    for word in words {
        if is_help(word.as_str()) {
            return true;
        }
    }
    false
}

/// Whether a word after the program's name asks for help.
fn asks_help(words: &[String]) -> bool
    ensures { result ≡ commands.asks_help (map string_bytes words.now) }
{
    match words {
        [_, words @ ..] => any_asks(words),
        [] => false,
    }
}

/// What a refusal of clap is here.
fn refusal(kind: ErrorKind, words: &[String]) -> Usage
    ensures memory { kind ≡ ErrorKind.OutOfMemory → result ≡ Usage.NoMemory }
    ensures help { result ≡ Usage.Help → commands.asks_help (map string_bytes words.now) ≡ true }
    ensures kind { result ≡ Usage.Help → kind ≡ ErrorKind.DisplayHelp }
    ensures bad { result ≡ Usage.Bad → commands.IsNoHelp kind (map string_bytes words.now) }
    ensures no_more { result ≡ Usage.NoMemory → kind ≡ ErrorKind.OutOfMemory }
{
    match kind {
        ErrorKind::OutOfMemory => Usage::NoMemory,
        ErrorKind::DisplayHelp if asks_help(words) => Usage::Help,
        _ => Usage::Bad,
    }
}

/// What clap makes of the words.
pub(crate) fn matches_of<'a>(alloc: Global, words: &'a [String]) -> Result<ArgMatches<'a>, Usage>
    ensures { MatchResult result
        (λ matches. (commands.faults (map string_bytes words.entry.now) ≡ [])
        × (rows_of (found_of matches) ≡ commands.matches (map string_bytes words.entry.now)))
        (commands.IsClapRefusal (map string_bytes words.entry.now)) }
{
    let command = bt_ctf(alloc)?;
    match command.try_get_matches_from(words) {
        Ok(matches) => Ok(matches),
        Err(error) => Err(refusal(error.kind(), words)),
    }
}
