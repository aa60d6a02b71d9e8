//! The options that the words of a command line give.

ghost use Rattle.std.specs.Prelude.{◌≡◌, ◌⊎◌, MatchResult, IfOk, map, option_map, string_bytes};
ghost use Rattle.clap.specs.Words.{found_of, rows_of, first_of, all_of};
ghost use Rattle.ctf_options.specs.Asked.{given};
ghost use Rattle.ctf_options.specs.Command as commands;

use crate::asked::{clock_of, shift_of, trim_of, zone_of};
use crate::command::matches_of;
use crate::options::Options;
use crate::usage::Usage;
use clap::ArgMatches;
use ctf_list::{List, NoMemory, Text};
use ctf_timestamp::Style;
use std::alloc::Global;

/// The folders that a command line may name, at the most.
const MOST_DIRS: usize = 1024;

/// The value of an option.
fn value<'a>(matches: &ArgMatches<'a>, name: &str) -> Option<&'a str>
    ensures { given result ≡ first_of name.now (rows_of (found_of matches.now)) }
{
    matches.get_str(name)
}

/// The values of an argument.
fn values<'m, 'a>(matches: &'m ArgMatches<'a>, name: &str) -> Option<&'m [&'a str]>
    ensures { option_map (λ values. map (λ value. value.now) values.now) result
        ≡ all_of name.now (rows_of (found_of matches.now)) }
{
    matches.get_strs(name)
}

/// Whether an option without a value is given.
fn flag(matches: &ArgMatches<'_>, name: &str) -> bool
    ensures { result ≡ commands.is_flag name.now (rows_of (found_of matches.now)) }
{
    match value(matches, name) {
        Some(value) => value == "true",
        None => false,
    }
}

/// Copies of texts.
fn copies(alloc: Global, texts: &[&str]) -> Result<List<Text>, NoMemory>
    ensures { IfOk result (λ copies. copies ≡ map (λ text. text.now) texts.now) }
{
    let mut copies = Vec::new(alloc);
    for text in texts {
        let copy = String::from_str(alloc, text)?;
        copies.push(Text::from_string(copy))?;
    }
    Ok(List::from_vec(copies))
}

/// The folders.
fn dirs_of(alloc: Global, matches: &ArgMatches<'_>) -> Result<List<Text>, Usage>
    ensures { MatchResult result (commands.AreDirs (rows_of (found_of matches.now)))
        (λ usage. (usage ≡ Usage.NoMemory)
        ⊎ ((usage ≡ Usage.Bad) × commands.AreNoDirs (rows_of (found_of matches.now)))) }
{
    let Some(dirs) = values(matches, "dirs") else {
        return Err(Usage::Bad);
    };
    if dirs.len() > MOST_DIRS {
        return Err(Usage::Bad);
    }
    Ok(copies(alloc, dirs)?)
}

/// The options that matches give.
fn options_in(alloc: Global, matches: &ArgMatches<'_>) -> Result<Options, Usage>
    ensures { MatchResult result (commands.AreOptions (rows_of (found_of matches.now)))
        (λ usage. (usage ≡ Usage.NoMemory)
        ⊎ ((usage ≡ Usage.Bad) × commands.AreRefused (rows_of (found_of matches.now)))) }
{
    let dirs = dirs_of(alloc, matches)?;
    let gmt = flag(matches, "clock-gmt");
    let zone = zone_of(alloc, gmt, value(matches, "zone"))?;
    let cycles = flag(matches, "clock-cycles");
    let date = flag(matches, "clock-date");
    let seconds = flag(matches, "clock-seconds");
    let clock = clock_of(cycles, date, seconds)?;
    let delta = !flag(matches, "no-delta");
    let begin = value(matches, "begin");
    let end = value(matches, "end");
    let both = value(matches, "timerange");
    let trim = trim_of(alloc, &zone, begin, end, both)?;
    let shift_seconds = value(matches, "clock-offset");
    let shift_nanos = value(matches, "clock-offset-ns");
    let shift = shift_of(shift_seconds, shift_nanos)?;
    let style = Style { clock, delta, zone };
    Ok(Options {
        dirs,
        trim,
        style,
        shift,
    })
}

/// The options that the words of a command line give; the first word is the program's name.
///
/// `Bad` where clap refuses the words, where a value is not of its form, where two of `--clock-cycles`,
/// `--clock-date` and `--clock-seconds` are given, or `--clock-gmt` together with `--zone`, or `--timerange` together
/// with `--begin` or `--end`, where the begin is after the end, and where there are more than 1,024 folders.
pub fn options_of(alloc: Global, words: &[String]) -> Result<Options, Usage>
    ensures { MatchResult result (commands.GivesOptions (map string_bytes words.now))
        (commands.IsRefusal (map string_bytes words.now)) }
{
    let matches = matches_of(alloc, words)?;
    options_in(alloc, &matches)
}
