use super::*;
use std::test::Fail;

// What a person is told who types these words; nothing where they are taken.
fn said(rt: &HostRuntime, texts: &[&str]) -> Result<String, Fail> {
    let mut words = Vec::new(rt.alloc());
    for text in texts {
        words.push(text.to_string(rt.alloc())?)?;
    }
    match read_words(rt.alloc(), &words) {
        Err(WordsError::Usage(text)) => Ok(text),
        _ => Ok(String::new(rt.alloc())),
    }
}

const HELP: &str =
    "Owned objects and an event loop, as Samba's talloc and tevent have them, replayed from a schedule

Usage: tvhost <COMMAND>

Commands:
  replay   Reads a schedule from standard input, and writes its transcript
  convert  Reads a schedule of either version from standard input, and writes it in version 2
  audit    Reads a transcript from standard input, and says whether its story is orderly
  serve    Serves lines at a Unix socket, and writes the schedule that it served
  load     Replays a schedule made from a number, and writes a summary
  help     Print this message or the help of the given subcommand(s)

Options:
  -h, --help  Print help
";

const UNKNOWN: &str = "error: unrecognized subcommand 'reply'

  tip: a similar subcommand exists: 'replay'

Usage: tvhost <COMMAND>

For more information, try '--help'.
";

const NO_ANSWERS: &str = "error: the following required arguments were not provided:
  <ANSWERS>

Usage: tvhost serve <PATH> <ANSWERS>

For more information, try '--help'.
";

const ZERO_ANSWERS: &str = "error: invalid value '0' for '<ANSWERS>': 0 is not in 1..=1000000000

For more information, try '--help'.
";

const NO_COUNT: &str = "error: the following required arguments were not provided:
  <COUNT>

Usage: tvhost load <NUMBER> <COUNT>

For more information, try '--help'.
";

const LARGE: &str = "error: invalid value '1000001' for '<COUNT>': 1000001 is not in 0..=1000000

For more information, try '--help'.
";

#[test]
fn a_person_is_told_what_to_type(rt: HostRuntime) -> Result<(), Fail> {
    assert_eq!(rt; said(&rt, &[])?.as_str(), HELP);
    assert_eq!(rt; said(&rt, &["--help"])?.as_str(), HELP);
    assert_eq!(rt; said(&rt, &["reply"])?.as_str(), UNKNOWN);
    assert_eq!(rt; said(&rt, &["serve", "p"])?.as_str(), NO_ANSWERS);
    assert_eq!(rt; said(&rt, &["serve", "p", "0"])?.as_str(), ZERO_ANSWERS);
    assert_eq!(rt; said(&rt, &["serve", "p", "3"])?.as_str(), "");
    assert_eq!(rt; said(&rt, &["load", "1"])?.as_str(), NO_COUNT);
    assert_eq!(rt; said(&rt, &["load", "1", "1000001"])?.as_str(), LARGE);
    assert_eq!(rt; said(&rt, &["replay"])?.as_str(), "");
    assert_eq!(rt; said(&rt, &["convert"])?.as_str(), "");
    assert_eq!(rt; said(&rt, &["audit"])?.as_str(), "");
    Ok(())
}
