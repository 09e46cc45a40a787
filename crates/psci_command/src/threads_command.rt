//! The command `threads`.

use crate::command_line::{described, drawn, flag, text};
use clap::Command;
use std::alloc::{AllocError, Global};

const ABOUT_THREADS: &str = "Start a thread for each core, and audit what they did";

const LONG_ABOUT_THREADS: &str = "\
Starts a thread for each core of a board of at most 64 cores, and one for the link, which loses,
repeats and reorders messages. Then an audit holds what the books of firmware and power controller
say against the rules: it has to be one legal run. Standard output has one line: `threads firmware F
controller C audited A` (F entries in the firmware's book, C in the power controller's, A in the
audited run). The numbers depend on how the threads come to run. With --counts there is a line more
for each core: `core N calls C entries E polls P` (C calls, E entries in the firmware's book with
these, P looks at the status of a core without the lock). With --keep FILE the audited run is
written into that file as a script, which `replay` answers alike.";

const SEED_HELP: &str = "What calls and losses are drawn from, 0 to 18446744073709551615; two runs \
                         of one seed may differ";

const COUNT_HELP: &str = "How many calls each core makes at most, 0 to 10000";

const COUNTS_HELP: &str = "Write a line more for each core, with what it did";

const KEEP_HELP: &str = "The file that the audited run is written into, as a script";

/// The command `threads`.
pub fn threads_command<'a>(alloc: Global) -> Result<Command<'a>, AllocError> {
    let threads = described(alloc, "threads", ABOUT_THREADS, LONG_ABOUT_THREADS);
    drawn(threads, alloc, SEED_HELP, COUNT_HELP)?
        .arg(flag(alloc, "counts", COUNTS_HELP))?
        .arg(text(alloc, "keep", KEEP_HELP))
}
