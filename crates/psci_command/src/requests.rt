//! What a command asks for, by the matches that the parser has found for it.

use clap::ArgMatches;

/// A storm, as the command line asks for it.
#[derive(Clone, Copy)]
pub struct StormRequest<'a> {
    /// The text of the board.
    pub board: &'a str,
    /// The seed.
    pub seed: u64,
    /// How many events are drawn, at most 10,000.
    pub count: u64,
    /// Whether the count of each tally is to be written.
    pub counts: bool,
    /// The file that the storm is to be kept in, if it is.
    pub keep: Option<&'a str>,
}

/// Threads, as the command line asks for them.
#[derive(Clone, Copy)]
pub struct ThreadsRequest<'a> {
    /// The text of the board.
    pub board: &'a str,
    /// The seed.
    pub seed: u64,
    /// How many calls each core makes, at most 10,000.
    pub count: u64,
    /// Whether what each core did is to be counted.
    pub counts: bool,
    /// The file that the run is to be kept in, if it is.
    pub keep: Option<&'a str>,
}

/// A script that is to be shown, as the command line asks for it.
#[derive(Clone, Copy)]
pub struct ShowRequest {
    /// Whether it is to be shown as JSON.
    pub json: bool,
    /// Whether the legend is to come first.
    pub legend: bool,
    /// The columns of a line, if they are given.
    pub width: Option<u16>,
    /// When there are colors.
    pub color: Color,
}

/// When there are colors.
#[derive(Clone, Copy, PartialEq, Eq)]
pub enum Color {
    /// On a terminal where `NO_COLOR` is not set.
    Auto,
    /// Always.
    Always,
    /// Never.
    Never,
}

/// What the command line asks for.
#[derive(Clone, Copy)]
pub enum Request<'a> {
    /// Replay a script.
    Replay,
    /// Make a storm.
    Storm(StormRequest<'a>),
    /// Start threads, and audit what they did.
    Threads(ThreadsRequest<'a>),
    /// Show a script.
    Show(ShowRequest),
    /// Nothing more: help, or the version, was shown.
    Nothing,
}

/// What these matches of the program ask for, or none where a part is missing, which the parser has
/// made sure of.
pub fn request_of<'a>(matches: &ArgMatches<'a>) -> Option<Request<'a>> {
    let Some((name, matches)) = matches.subcommand() else {
        return Some(Request::Replay);
    };
    match name {
        "storm" => storm_in(matches).map(Request::Storm),
        "threads" => threads_in(matches).map(Request::Threads),
        "show" => Some(Request::Show(show_in(matches)?)),
        _ => Some(Request::Replay),
    }
}

/// The storm that these matches of its command ask for, or none where a number is missing.
fn storm_in<'a>(matches: &ArgMatches<'a>) -> Option<StormRequest<'a>> {
    Some(StormRequest {
        board: matches.get_str("board")?,
        seed: matches.get_one("seed")?,
        count: matches.get_one("count")?,
        counts: matches.get_flag("counts"),
        keep: matches.get_str("keep"),
    })
}

/// The threads that these matches of their command ask for, or none where a number is missing.
fn threads_in<'a>(matches: &ArgMatches<'a>) -> Option<ThreadsRequest<'a>> {
    Some(ThreadsRequest {
        board: matches.get_str("board")?,
        seed: matches.get_one("seed")?,
        count: matches.get_one("count")?,
        counts: matches.get_flag("counts"),
        keep: matches.get_str("keep"),
    })
}

/// What these matches of the command `show` ask for, or none where they have no word for colors.
fn show_in(matches: &ArgMatches<'_>) -> Option<ShowRequest> {
    Some(ShowRequest {
        json: matches.get_flag("json"),
        legend: matches.get_flag("legend"),
        width: matches.get_one("width"),
        color: Color::named(matches.get_str("color")?)?,
    })
}

impl Color {
    /// What this word says of colors, if it is one of those for them.
    fn named(word: &str) -> Option<Color> {
        match word {
            "auto" => Some(Color::Auto),
            "always" => Some(Color::Always),
            "never" => Some(Color::Never),
            _ => None,
        }
    }
}
