//! From words to a command.
ghost use Rattle.std.specs.Prelude.{◌≡◌, ◌≢◌, ◌≤◌, ◌<◌, ℕ, List, None, Ok, Some, IfErr, IfOk, false, length, map, option_map};
ghost use Rattle.std.specs.Borrow.{Bor};
ghost use Rattle.std.specs.String.{string_bytes};
ghost use Rattle.clap.specs.Words.{FailsBy, app_of, fault_of, found_of, rows_of, kind_of, new_app, rule_of, subcommand_of, subcommand_rows_of};
ghost use Rattle.clap.specs.declared.builder.command.Command.TheViews.{out-Command as fields_of};
ghost use Rattle.command_words.specs.declared.command.TheConstants.{ANSWERS_LIMIT, COUNT_LIMIT};
ghost use Rattle.command_words.specs.CommandLine.{asked_by, command_line, command_of, load_app, load_in, named_command, number_in, required_rule};
ghost use Rattle.command_words.specs.CommandLine.{serve_app, serve_in, text_in, top_app};

use crate::command::{ANSWERS_LIMIT, COUNT_LIMIT, Command};
use clap::builder::ValueParser;
use clap::error::ErrorKind;
use clap::{Arg, ArgMatches, Error, value_parser};
use std::alloc::{AllocError, Global};

/// Why words are no command.
#[derive(Drop)]
pub enum WordsError {
    /// They aren't taken. A person is told by this text what to type.
    Usage(String),
    /// Memory ran out.
    Memory,
}

/// An argument that has to be there.
fn required<'a>(alloc: Global, name: &'a str, help: &'a str, parser: ValueParser<'a>) -> Arg<'a>
    ensures rule { rule_of result ≡ required_rule name.entry.now parser.entry }
    ensures local { result.global ≡ false }
{
    Arg::new(alloc, name)
        .help(help)
        .required(true)
        .value_parser(parser)
}

/// A command with no arguments so far.
fn command<'a>(alloc: Global, name: &'a str, about: &'a str) -> clap::Command<'a>
    ensures app { app_of result ≡ new_app name.entry.now }
    ensures local { (fields_of result).has_globals ≡ false }
{
    clap::Command::new(alloc, name).about(about)
}

/// The command `serve`.
fn serve<'a>(alloc: Global) -> Result<clap::Command<'a>, AllocError>
    ensures app { IfOk result (λ c. app_of c ≡ serve_app) }
    ensures local { IfOk result (λ c. (fields_of c).has_globals ≡ false) }
{
    let path = required(
        alloc,
        "PATH",
        "Where the socket is made",
        ValueParser::NonEmptyString,
    );
    let answers = required(
        alloc,
        "ANSWERS",
        "How many answers of the outside are served: 1 to 1000000000",
        value_parser!(u32).range(1..=1_000_000_000),
    );
    command(
        alloc,
        "serve",
        "Serves lines at a Unix socket, and writes the schedule that it served",
    )
    .arg(path)?
    .arg(answers)
}

/// The command `load`.
fn load<'a>(alloc: Global) -> Result<clap::Command<'a>, AllocError>
    ensures app { IfOk result (λ c. app_of c ≡ load_app) }
    ensures local { IfOk result (λ c. (fields_of c).has_globals ≡ false) }
{
    let number = required(
        alloc,
        "NUMBER",
        "What the schedule is made from: 0 to 4294967295",
        value_parser!(u32),
    );
    let count = required(
        alloc,
        "COUNT",
        "How many calls are drawn: 0 to 1000000",
        value_parser!(u32).range(0..=1_000_000),
    );
    command(
        alloc,
        "load",
        "Replays a schedule made from a number, and writes a summary",
    )
    .arg(number)?
    .arg(count)
}

/// The program's own command, before its subcommands.
fn top<'a>(alloc: Global) -> Result<clap::Command<'a>, AllocError>
    ensures app { IfOk result (λ c. app_of c ≡ top_app) }
    ensures local { IfOk result (λ c. (fields_of c).has_globals ≡ false) }
{
    command(
        alloc,
        "tvhost",
        "Owned objects and an event loop, as Samba's talloc and tevent have them, replayed from a schedule",
    )
    .no_binary_name(true)
    .arg_required_else_help(true)
    .subcommand_required(true)
    .bin_name("tvhost")
}

/// The command line of the program, as `clap` has it.
fn command_line<'a>(alloc: Global) -> Result<clap::Command<'a>, AllocError>
    ensures { IfOk result (λ c. app_of c ≡ command_line) }
{
    let replay = command(
        alloc,
        "replay",
        "Reads a schedule from standard input, and writes its transcript",
    );
    let convert = command(
        alloc,
        "convert",
        "Reads a schedule of either version from standard input, and writes it in version 2",
    );
    let audit = command(
        alloc,
        "audit",
        "Reads a transcript from standard input, and says whether its story is orderly",
    );
    let serve = serve(alloc)?;
    let load = load(alloc)?;
    top(alloc)?
        .subcommand(replay)?
        .subcommand(convert)?
        .subcommand(audit)?
        .subcommand(serve)?
        .subcommand(load)
}

/// What `clap` makes of the words.
fn parse<'a>(alloc: Global, words: &'a [String]) -> Result<ArgMatches<'a>, Error>
    ensures kinds { FailsBy (fault_of command_line (map (λ w. string_bytes w) words.entry.now)) result }
    ensures rows { IfOk result (λ m. subcommand_rows_of m ≡ subcommand_of command_line (map (λ w. string_bytes w) words.entry.now)) }
{
    command_line(alloc)?.try_get_matches_from(words)
}

/// The value of an argument, where it is a number from `least` to `most`.
fn number_in(matches: &ArgMatches, least: u32, most: u32, name: &str) -> Option<u32>
    ensures { result ≡ number_in least most name.now (rows_of (found_of matches.now)) }
{
    match matches.get_one::<u32>(name) {
        Some(number) if (least..=most).contains(&number) => Some(number),
        _ => None,
    }
}

/// The value of an argument, where it isn't empty.
fn text_in<'a>(matches: &ArgMatches<'a>, name: &str) -> Option<&'a str>
    ensures { option_map (λ text. text.now) result ≡ text_in name.now (rows_of (found_of matches.now)) }
{
    match matches.get_str(name) {
        Some(text) if !text.is_empty() => Some(text),
        _ => None,
    }
}

/// The path and the answers of the command `serve`.
fn serve_in<'a>(matches: &ArgMatches<'a>) -> Option<Command<'a>>
    ensures { option_map asked_by result ≡ serve_in (rows_of (found_of matches.now)) }
{
    let path = text_in(matches, "PATH")?;
    let answers = number_in(matches, 1, ANSWERS_LIMIT, "ANSWERS")?;
    Some(Command::Serve { path, answers })
}

/// The number and the count of the command `load`.
fn load_in<'a>(matches: &ArgMatches<'a>) -> Option<Command<'a>>
    ensures { option_map asked_by result ≡ load_in (rows_of (found_of matches.now)) }
{
    let number = number_in(matches, 0, u32::MAX, "NUMBER")?;
    let count = number_in(matches, 0, COUNT_LIMIT, "COUNT")?;
    Some(Command::Load { number, count })
}

/// The command that was met.
fn command_met<'a>(matches: &ArgMatches<'a>) -> Option<Command<'a>>
    ensures { option_map asked_by result ≡ named_command (subcommand_rows_of matches.now) }
{
    let (name, fields) = matches.subcommand()?;
    match name {
        "replay" => Some(Command::Replay),
        "convert" => Some(Command::Convert),
        "audit" => Some(Command::Audit),
        "serve" => serve_in(fields),
        _ => load_in(fields),
    }
}

/// Reads the words that follow the program's name.
///
/// # Errors
///
/// `Usage` exactly where the words are no command, so where `clap` refuses them, and words that ask for help. `Memory`
/// where there was none.
// What `clap` takes of the call stack, some 10 KiB, is given up before the command runs: a replay is to do with 64 KiB.
#[inline(never)]
pub fn read_words<'a>(alloc: Global, words: &'a [String]) -> Result<Command<'a>, WordsError>
    // The command that was read has its count in its range.
    ensures few { (number count : ℕ) → result ≡ Ok (Command.Load number count) → count ≤ COUNT_LIMIT }
    // It has its answers in theirs, and a path that isn't empty.
    ensures served { (path : Bor (List ℕ)) (answers : ℕ) → result ≡ Ok (Command.Serve path answers)
        → (0 < length path.now) × (1 ≤ answers) × (answers ≤ ANSWERS_LIMIT) }
    ensures read { IfOk result (λ c. command_of (map (λ w. string_bytes w) words.entry.now) ≡ Some (asked_by c)) }
    ensures refused { IfErr result (λ e. e ≢ WordsError.Memory → command_of (map (λ w. string_bytes w) words.entry.now) ≡ None) }
{
    match parse(alloc, words) {
        Ok(matches) => command_met(&matches).ok_or_else(|| WordsError::Usage(String::new(alloc))),
        Err(error) => Err(refusal(alloc, &error)),
    }
}

/// What is said of an error of `clap`.
fn refusal(alloc: Global, error: &Error) -> WordsError
    ensures { kind_of error.now ≡ ErrorKind.OutOfMemory → result ≡ WordsError.Memory }
{
    if error.kind() == ErrorKind::OutOfMemory {
        return WordsError::Memory;
    }
    match error.to_string(alloc) {
        Ok(text) => WordsError::Usage(text),
        Err(AllocError) => WordsError::Memory,
    }
}
