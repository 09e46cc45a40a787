//! The grammar of a line after the first.

ghost use Rattle.std.specs.Prelude.{◌≡◌, None, codes, option_map};
ghost use Rattle.psci_board.specs.Grammar.{literal_at, spaced_at};
ghost use Rattle.psci_script.specs.EventText.{alone_at, call_at, event_at, line_of};
ghost use Rattle.psci_script.specs.EventText.{optional_register_at, register_at};

use psci_board::{hex, literal, number};
use psci_world_spec::{Event, Regs};

/// What a line says.
#[derive(Clone, Copy, Debug, PartialEq)]
pub enum Line {
    /// Nothing: it is empty, or a comment.
    Blank,
    /// An event.
    Event(Event),
}

/// The value of a register at the front, decimal or hexadecimal, and the text after it.
// In place, as is what calls it.
#[inline(always)]
#[tactic(auto, unfolding(crate::specs::EventText::register_at))]
fn register(text: &[u8]) -> Option<(u64, &[u8])>
    ensures { option_map (λ x. (x.0, x.1.now)) result ≡ register_at text.now }
{
    hex(text).or_else(|| number(text))
}

/// The register after a space, and the text after it.
// In place, since a call would write its four words to memory, also where no register is left.
#[inline(always)]
#[tactic(auto, unfolding(psci_board::specs::Grammar::spaced_at))]
fn spaced_register(text: &[u8]) -> Option<(u64, &[u8])>
    ensures { option_map (λ x. (x.0, x.1.now)) result ≡ spaced_at register_at text.now }
{
    register(literal(text, b" ")?)
}

/// The register after a space and the text after it, or 0 where there is none.
// In place, as the one before.
#[inline(always)]
#[tactic(auto, unfolding(crate::specs::EventText::optional_register_at))]
fn optional_register(text: &[u8]) -> (u64, &[u8])
    ensures { (result.0, result.1.now) ≡ optional_register_at text.now }
{
    match spaced_register(text) {
        Some(found) => found,
        None => (0, text),
    }
}

/// The call after its first word.
#[tactic(auto, unfolding(crate::specs::EventText::call_at))]
fn call(text: &[u8]) -> Option<Event>
    ensures { result ≡ call_at text.now }
{
    let (core, rest) = number(text)?;
    let (x0, rest) = spaced_register(rest)?;
    let (x1, rest) = optional_register(rest);
    let (x2, rest) = optional_register(rest);
    let (x3, rest) = optional_register(rest);
    rest.is_empty()
        .then_some(Event::Call(core, Regs { x0, x1, x2, x3 }))
}

/// The number that stands alone.
#[tactic(auto, unfolding(crate::specs::EventText::alone_at))]
fn alone(text: &[u8]) -> Option<u64>
    ensures { result ≡ alone_at text.now }
{
    let (found, rest) = number(text)?;
    rest.is_empty().then_some(found)
}

/// The event, by its first word.
#[tactic(auto, unfolding(crate::specs::EventText::event_at))]
fn event(text: &[u8]) -> Option<Event>
    ensures { result ≡ event_at text.now }
{
    match literal(text, b"call ") {
        Some(rest) => call(rest),
        None => numbered_event(text),
    }
}

/// The event that is no call, by its first word.
#[tactic(auto, unfolding(crate::specs::EventText::event_at))]
fn numbered_event(text: &[u8]) -> Option<Event>
    requires { literal_at (codes "call ") text.now ≡ None }
    ensures { result ≡ event_at text.now }
{
    if let Some(rest) = literal(text, b"enter ") {
        return alone(rest).map(Event::Enter);
    }
    if let Some(rest) = literal(text, b"deliver ") {
        return alone(rest).map(Event::Deliver);
    }
    if let Some(rest) = literal(text, b"take ") {
        return alone(rest).map(Event::Take);
    }
    if let Some(rest) = literal(text, b"wake ") {
        return alone(rest).map(Event::Wake);
    }
    alone(literal(text, b"reset ")?).map(Event::Reset)
}

/// What the line says, or none where it is outside the grammar.
#[tactic(auto, unfolding(crate::specs::EventText::line_of))]
pub fn read_line(text: &[u8]) -> Option<Line>
    ensures { result ≡ line_of text.now }
{
    if let [] | [b'#', ..] = text {
        return Some(Line::Blank);
    }
    event(text).map(Line::Event)
}
