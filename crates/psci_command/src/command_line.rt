//! The command line: which command is meant, or the parser's text.

use crate::requests::{Request, request_of};
use crate::threads_command::threads_command;
use clap::builder::ValueParser;
use clap::error::{Error, ErrorKind};
use clap::{Arg, ArgAction, Command, value_parser};
use psci_script::{Failure, ReplayFault};
use std::alloc::{AllocError, Global};
use std::rt::Env;
use std::{env, io, str};

/// What these words ask for, the program's name first, or the parser's error; nothing where a part
/// is missing, which the parser has made sure of.
fn request_in<'a>(alloc: Global, words: &'a [String]) -> Result<Option<Request<'a>>, Error> {
    let matches = commands(alloc)?.try_get_matches_from(words)?;
    Ok(request_of(&matches))
}

/// The words of the command line, the program's name first.
pub fn words<R: Env + AllocGlobal + Eprint>(rt: &R) -> Result<Vec<String>, Failure> {
    match env::args(rt) {
        Ok(args) => args
            .collect(rt.alloc())
            .map_err(|_| Failure::Replay(ReplayFault::Memory)),
        Err(error) => {
            if error.kind() == io::ErrorKind::OutOfMemory {
                return Err(Failure::Replay(ReplayFault::Memory));
            }
            let _ = eprintln!(rt; "error: the command line is not UTF-8 text");
            Err(Failure::CommandLine)
        }
    }
}

/// Says on standard error what the parser says, which has words of the command line in it, as plain
/// text. Where memory is too little for that, or it cannot be written, the status must do.
fn complain<R: AllocGlobal + Eprint>(rt: &R, error: &Error) {
    let Ok(text) = format!(in rt.alloc(); "{error}") else {
        return;
    };
    let Ok(bytes) = plain(rt.alloc(), text.as_str()) else {
        return;
    };
    if let Ok(text) = str::from_utf8(bytes.as_slice()) {
        let _ = eprint!(rt; "{text}");
    }
}

/// Shows the parser's text: help and the version on standard output, a fault on standard error.
fn shown<'a, R: AllocGlobal + Print + Eprint>(
    rt: &R,
    error: &Error,
) -> Result<Request<'a>, Failure> {
    if error.kind() == ErrorKind::OutOfMemory {
        return Err(Failure::Replay(ReplayFault::Memory));
    }
    if error.use_stderr() {
        complain(rt, error);
        return Err(Failure::CommandLine);
    }
    error
        .print(rt)
        .map(|_| Request::Nothing)
        .map_err(|_| Failure::Replay(ReplayFault::Write))
}

/// Reads the command line. Where it asks for no command the parser's text is shown here.
// Its frame, 16 KiB of the parser's, must not lie on the stack beneath the command that it asks
// for.
#[inline(never)]
pub fn asked<'a, R: AllocGlobal + Print + Eprint>(
    rt: &R,
    words: &'a [String],
) -> Result<Request<'a>, Failure> {
    match request_in(rt.alloc(), words) {
        Ok(request) => request.ok_or(Failure::CommandLine),
        Err(error) => shown(rt, &error),
    }
}

// The commands of the program, with their help.

/// The version of the program, as `--version` names it.
const VERSION: &str = "0.1.0";

const ABOUT: &str =
    "Replays or shows scripts of PSCI calls to the power firmware, makes storms of random events, or
starts threads and audits what they did.";

const ABOUT_REPLAY: &str = "Replay a script: standard input to standard output";

const LONG_ABOUT_REPLAY: &str =
    "Takes a script from standard input. Each event of it is answered by a line on standard output.

The first line of a script is a board. Each later line is empty, or a comment that begins with #,
or an event: `call CORE X0 [X1 [X2 [X3]]]` (an SMC of a core, with its registers), `enter CORE`
(a started core enters the firmware), `wake CORE`, `reset CORE`, `deliver K` (the power controller
gets message K) or `take K` (the firmware gets acknowledgement K). A fault of the script is named on
standard error, with its line.";

const EXAMPLE: &str = "Example:
  printf '%s\\n' 'board (2 2) exec 0x40000000-0x40100000 boot 0x40000000 starts 1000 lives 3' \\
      'enter 0' 'call 0 0x84000000' | ./psci replay
writes
  1 enter 0x40000000 0x0
  2 return 65537

Exit status: 0 done, 2 command line, 3 script, 4 read or write, 5 memory, 6 threads";

/// The commands of the program.
pub fn commands<'a>(alloc: Global) -> Result<Command<'a>, AllocError> {
    let replay = described(alloc, "replay", ABOUT_REPLAY, LONG_ABOUT_REPLAY).after_help(EXAMPLE);
    Command::new(alloc, "psci_cli")
        .version(VERSION)
        .about(ABOUT)
        .after_help(EXAMPLE)
        .subcommand_required(true)
        .subcommand(replay)?
        .subcommand(storm_command(alloc)?)?
        .subcommand(threads_command(alloc)?)?
        .subcommand(show_command(alloc)?)
}

// Commands without options, and the options of commands.

/// The board, where none is given: two clusters of two cores.
const BOARD: &str = "(2 2) exec 0x40000000-0x40100000 boot 0x40000000 starts 1000 lives 3";

const BOARD_HELP: &str = "The board, as the first line of a script has it behind its first word";

/// The command of this name without options, with what help says of it.
pub fn described<'a>(
    alloc: Global,
    name: &'a str,
    about: &'a str,
    long_about: &'a str,
) -> Command<'a> {
    Command::new(alloc, name)
        .about(about)
        .long_about(long_about)
}

/// The command, with a board, a seed and a count as well.
pub fn drawn<'a>(
    command: Command<'a>,
    alloc: Global,
    seed_help: &'a str,
    count_help: &'a str,
) -> Result<Command<'a>, AllocError> {
    command
        .arg(board(alloc))?
        .arg(seed(alloc, seed_help))?
        .arg(count(alloc, count_help))
}

/// The board, which may be left out.
fn board<'a>(alloc: Global) -> Arg<'a> {
    text(alloc, "board", BOARD_HELP).default_value(BOARD)
}

/// The seed: any number of 64 bits.
fn seed<'a>(alloc: Global, help: &'a str) -> Arg<'a> {
    number(alloc, "seed", help, value_parser!(u64))
}

/// The count: at most 10,000.
fn count<'a>(alloc: Global, help: &'a str) -> Arg<'a> {
    number(alloc, "count", help, value_parser!(u64).range(..=10_000))
}

/// A number that must be given, under this name.
fn number<'a>(alloc: Global, name: &'a str, help: &'a str, parser: ValueParser<'a>) -> Arg<'a> {
    text(alloc, name, help).required(true).value_parser(parser)
}

/// A flag of this name, which may be left out.
pub fn flag<'a>(alloc: Global, name: &'a str, help: &'a str) -> Arg<'a> {
    text(alloc, name, help).action(ArgAction::SetTrue)
}

/// A text, which may be left out, under this name.
pub fn text<'a>(alloc: Global, name: &'a str, help: &'a str) -> Arg<'a> {
    Arg::new(alloc, name).long(name).help(help)
}

// Text that a terminal shows and does not obey.

/// The byte itself where it is a line feed or printable ASCII, and else a question mark.
fn plain_byte(byte: u8) -> u8 {
    match byte {
        b'\n' | b' '..=b'~' => byte,
        _ => b'?',
    }
}

/// The text, byte for byte, without those that a terminal would obey.
pub fn plain(alloc: Global, text: &str) -> Result<Vec<u8>, AllocError> {
    text.as_bytes()
        .iter()
        .map(|&byte| plain_byte(byte))
        .collect(alloc)
}

// The command `show`.

const ABOUT_SHOW: &str = "Show a script in words, with the state of each core and power domain";

const LONG_ABOUT_SHOW: &str =
    "Takes a script from standard input, and says what each event of it asks for and is answered, in
words. A line has the event's number, a letter for each core, the depth of each power domain as the
power controller has it, level by level, and then the words; a depth has a ! behind it where it is
not the granted one. --legend says what the letters are. With --json standard output has an object
for the board, and then one for each event. A fault of the script is named on standard error.";

const JSON_HELP: &str = "Write an object for the board, and then one for each event";

const LEGEND_HELP: &str = "Say first what letters and marks mean";

const WIDTH_HELP: &str =
    "How wide lines are, 0 to 65535 (under 40 as 40); else 80, or by ./psci as the terminal is";

const COLOR_HELP: &str =
    "When letters are colored; auto is never, or by ./psci on a terminal without NO_COLOR always";

/// The command `show`.
pub fn show_command<'a>(alloc: Global) -> Result<Command<'a>, AllocError> {
    described(alloc, "show", ABOUT_SHOW, LONG_ABOUT_SHOW)
        .arg(flag(alloc, "json", JSON_HELP))?
        .arg(flag(alloc, "legend", LEGEND_HELP))?
        .arg(width(alloc))?
        .arg(color(alloc))
}

/// The width, which may be left out.
fn width<'a>(alloc: Global) -> Arg<'a> {
    text(alloc, "width", WIDTH_HELP).value_parser(ValueParser::unsigned(0, 65_535))
}

/// When letters are colored, by one of three words.
fn color<'a>(alloc: Global) -> Arg<'a> {
    text(alloc, "color", COLOR_HELP)
        .default_value("auto")
        .value_parser(ValueParser::Names(&["auto", "always", "never"]))
}

// The command `storm`.

const ABOUT_STORM: &str = "Make a storm of random events, and let it settle";

const LONG_ABOUT_STORM: &str =
    "Makes so many random events happen on a board, drawn from the seed, and then lets it settle.
Standard output has one line: `storm events E sent S quiet R` (E events in all, S messages sent, at
rest after R rounds) or `storm events E sent S halting`. With --counts there is a line more for each
tally (what was asked, with what was answered), also if it never came: `TALLY N`, N records. With
--keep FILE the storm is written into that file as a script, which `replay` answers.";

const SEED_HELP: &str =
    "What the storm is drawn from, 0 to 18446744073709551615; a seed has one storm";

const COUNT_HELP: &str = "How many events are drawn, 0 to 10000";

const COUNTS_HELP: &str = "Write a line more for each tally, with how often it came";

const KEEP_HELP: &str = "The file that the storm is written into, as a script";

/// The command `storm`.
pub fn storm_command<'a>(alloc: Global) -> Result<Command<'a>, AllocError> {
    let storm = described(alloc, "storm", ABOUT_STORM, LONG_ABOUT_STORM);
    drawn(storm, alloc, SEED_HELP, COUNT_HELP)?
        .arg(flag(alloc, "counts", COUNTS_HELP))?
        .arg(text(alloc, "keep", KEEP_HELP))
}
