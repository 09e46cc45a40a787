//! What a core that stops claims of its power domains.

ghost use Rattle.std.specs.Prelude.{◌<◌, ◌≡◌, Err, IfOk, MatchResult, Ok, OnErr, ℕ};
ghost use Rattle.psci_board.specs.Board.{cores};
ghost use Rattle.psci_messages.specs.Claim.{off_claims, own_claims, refusal, shallow};
ghost use Rattle.psci_messages.specs.declared.kind.Kind.TheVariants as kinds;
ghost use Rattle.psci_messages.specs.Looked.{view_of};
ghost use Rattle.psci_messages.specs.Message.{ArePartsOf};
ghost use Rattle.psci_tree.specs.Recount.{granted_at, is_confirmed_at};
ghost use Rattle.psci_fw_spec.specs.Changes.{claimed_anew, with_claims, with_rest};
ghost use Rattle.psci_fw_spec.specs.PowerCalls.{leaving_claims, message_for, suspend_parts};
ghost use Rattle.psci_fw_spec.specs.Effects.{suspends};
ghost use Rattle.psci_fw_spec.specs.Values.{granted_with};
ghost use Rattle.psci_fw_spec.specs.Invariant.{view};
ghost use Rattle.psci_fw_state.specs.Claims.{IsGrantable};
ghost use Rattle.psci_fw_state.specs.Wishes.{asked_wish, wished_claims, wished_in};
ghost use Rattle.psci_fw_state.specs.Seen.{IsRunningCore, values_in};
ghost use Rattle.psci_fw_state.specs.Trees.{IsTreeOf, KeepsCores};

use crate::state::State;
use psci_board::{Board, Core, Node, law_paths, law_sizes};
use psci_coord::Wish;
use psci_fw_spec::{Opening, SuspendMode};
use psci_messages::{Kind, MOST_PARTS, Message, Osi, Part, Parts, law_parts, law_slots};
use psci_osi::{off_ask, path_refusal};
use psci_state::Ask;
use psci_tree::{Tree, law_confirmed, law_cores, law_granted};

impl State {
    /// What a core that is off or going off wants of its domains. Compiled into its callers, so
    /// that a wish has no room of its own where the firmware coordinates.
    #[inline(always)]
    pub fn leaving_wish(&self, core: Core) -> Wish
        requires inside { core.number < cores self.now.board }
        ensures { let v = values_in self.now in wished_in self.now core.number result
            ≡ leaving_claims self.now.board (view self.now.board v) core.number v.mode }
    {
        match self.mode() {
            SuspendMode::Platform => Wish::Least,
            SuspendMode::OsInitiated => Wish::Own(self.off_ask(core)),
        }
    }

    /// A running core is suspended with this ask: what it then wants of its domains, or why it may
    /// not be.
    pub fn suspend(&mut self, core: Core, ask: Ask, opening: Opening) -> Result<Wish, Osi>
        requires { IsRunningCore self.old core.number }
        ensures parts { let said = suspend_parts self.old.board (values_in self.old) core.number ask
            in MatchResult result (λ wish. said ≡ Ok (wished_in self.new core.number wish))
            (λ e. said ≡ Err e) }
        ensures after { IfOk result (λ _. values_in self.new
            ≡ with_rest core.number (suspends opening ask) (values_in self.old)) }
        ensures refused { OnErr result (self.new ≡ self.old) }
        ensures board { self.new.board ≡ self.old.board }
    {
        match self.asked_wish(core, ask) {
            Ok(wish) => {
                self.set_suspended(core, ask, opening);
                Ok(wish)
            }
            Err(reason) => Err(reason),
        }
    }

    /// What a core wants of its domains that asks for this, or why it may not.
    fn asked_wish(&self, core: Core, ask: Ask) -> Result<Wish, Osi>
        requires inside { core.number < cores self.now.board }
        ensures { let v = values_in self.now in result
            ≡ asked_wish self.now.board (view self.now.board v) core.number ask v.mode }
    {
        match self.mode() {
            SuspendMode::Platform => Ok(Wish::Least),
            SuspendMode::OsInitiated => match self.refusal(core, ask) {
                None => Ok(Wish::Own(ask)),
                Some(reason) => Err(reason),
            },
        }
    }

    /// Why a core that asks for this in OS-initiated mode is refused, if it is. It has a frame of
    /// its own, which no call in the other mode holds.
    #[inline(never)]
    #[tactic(auto, unfolding(crate::specs::Seen::values_in))]
    fn refusal(&self, core: Core, ask: Ask) -> Option<Osi>
        requires inside { core.number < cores self.now.board }
        ensures { let w = view self.now.board (values_in self.now) in
            result ≡ refusal self.now.board w (shallow self.now.board w core.number ask) }
    {
        path_refusal(&self.tree, &self.board, core, ask)
    }

    /// What a core asks that goes off in OS-initiated mode, in a frame of its own for the same
    /// reason.
    #[inline(never)]
    #[tactic(auto, unfolding(crate::specs::Seen::values_in))]
    fn off_ask(&self, core: Core) -> Ask
        requires inside { core.number < cores self.now.board }
        ensures { let w = view self.now.board (values_in self.now) in
            own_claims self.now.board w core.number result
            ≡ off_claims self.now.board w core.number }
    {
        off_ask(&self.tree, &self.board, core)
    }

    /// A message of this kind for a core, with its known start.
    #[tactic(auto, unfolding(crate::specs::Seen::values_in))]
    pub fn message(&self, kind: Kind, core: Core, parts: Parts) -> Message
        requires inside { core.number < cores self.now.board }
        requires parts { ArePartsOf kind parts }
        ensures { result ≡ message_for (values_in self.now) kind core.number parts }
    {
        law_sizes();
        Message {
            kind,
            core,
            life: self.life,
            number: self.tree.known_start_inside(core),
            parts,
        }
    }

    /// A core that wants this sends a Down: its domains are granted what it claims. The message is
    /// written into its slot, where it stands.
    #[tactic(auto, unfolding(crate::specs::Seen::values_in))]
    pub fn claim(&mut self, core: Core, wish: &Wish)
        requires { IsGrantable self.old.board core.number
            (wished_in self.old core.number wish.now) (values_in self.old).granted }
        ensures after { let v = values_in self.old in
            let parts = wished_in self.old core.number wish.now in values_in self.new
            ≡ with_claims self.old.board (message_for v kinds.Down core.number parts) v }
        ensures board { self.new.board ≡ self.old.board }
    {
        law_sizes();
        law_slots();
        let number = self.tree.known_start_inside(core);
        let message = self.slots.lend(core);
        message.kind = Kind::Down;
        message.core = core;
        message.life = self.life;
        message.number = number;
        claim_levels(&mut self.tree, &self.board, core, wish, &mut message.parts);
    }
}

/// Up the path of a core that wants this: a part for each domain, as long as a depth of at least 1
/// is wanted, in place of the parts before, and the domain is granted what the part claims.
#[inline(always)]
fn claim_levels(tree: &mut Tree, board: &Board, core: Core, wish: &Wish, parts: &mut Parts)
    requires tree { IsTreeOf board.now tree.old }
    requires parts { IsGrantable board.now core.number
        (wished_claims board.now (view_of tree.old) core.number wish.now) (granted_at tree.old) }
    ensures parts { parts.new
        ≡ wished_claims board.now (view_of tree.old) core.number wish.now }
    ensures granted { (level place : ℕ) → granted_at tree.new level place
        ≡ granted_with board.now core.number parts.new (granted_at tree.old) level place }
    ensures confirmed { (level place : ℕ) → is_confirmed_at tree.new level place
        ≡ claimed_anew board.now core.number parts.new (is_confirmed_at tree.old) level place }
    ensures kept { KeepsCores tree.old tree.new }
{
    law_paths();
    law_parts();
    law_cores();
    law_granted();
    law_confirmed();
    parts.clear();
    // turns of a constant number, and the height read in each, take the fewest instructions
    for level in 0..MOST_PARTS as u32 {
        if level > board.height() {
            break;
        }
        let standing = tree.standing(core, level);
        let depth = wish.depth(level, standing.low);
        if depth == 0 {
            break;
        }
        let part = Part {
            level,
            depth,
            generation: standing.known,
        };
        parts.push_at(level as usize, part);
        let node = tree.on_path(core, level);
        tree.grant(node, depth);
    }
}
