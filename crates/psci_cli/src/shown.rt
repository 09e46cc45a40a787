//! A script, shown as the command line asks for it.

ghost use Rattle.std.specs.Prelude.{IfErr};
ghost use Rattle.psci_command.specs.psci_script.Exit.{IsOfReplay};

use psci_bench::Std;
use psci_command::{Color, Failure, ShowRequest};
use psci_show::{Form, Layout, show};

/// The columns of a line, where they are not given: the kit has nothing that asks a terminal.
const WIDTH: u16 = 80;

/// Shows the script on standard input in a world of its own.
#[inline(never)]
pub fn show_standard(rt: &HostRuntime, request: ShowRequest) -> Result<(), Failure>
    ensures { IfErr result IsOfReplay }
{
    let mut source = Std::new(rt.reader());
    let mut sink = Std::new(rt.stdout());
    match show(rt.alloc(), &mut source, &mut sink, form(request)) {
        Ok(_) => Ok(()),
        Err(fault) => Err(Failure::Replay(fault)),
    }
}

/// The form that is asked for. Whether standard output is a terminal is not known here, so colors
/// are asked for by name.
fn form(request: ShowRequest) -> Form {
    if request.json {
        return Form::Json;
    }
    Form::Lines(Layout {
        width: request.width.unwrap_or(WIDTH),
        color: request.color == Color::Always,
        legend: request.legend,
    })
}
