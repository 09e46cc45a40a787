//! What holds of the definitions alone.

ghost use Rattle.psci_script.specs.EventText.{ReadsAsKept, ReadsAsSpelled, SpellsWhatItSays};

use psci_board::law_text;

/// An event line is read as it is spelled, and in no other way.
///
/// The first clause rules out a reading that refuses a line of the grammar, or takes it for another
/// event. The second rules out a reading that accepts what the grammar does not spell: a fifth
/// register, a second space, a leading zero, anything after the line.
pub fn law_event_lines()
    ensures again { ReadsAsSpelled }
    ensures spelled { SpellsWhatItSays }
{
    law_text();
}

/// The kept line of each event whose numbers have 64 bits is read as this event again. So a replay
/// of a kept script makes the events happen that were kept, in their order.
pub fn law_kept_lines()
    ensures { ReadsAsKept }
{
    law_event_lines();
}
