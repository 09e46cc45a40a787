//! The changes of a tree: a core does something else, and a domain is granted another depth.

ghost use Rattle.std.specs.Prelude.{◌≡◌, ◌<◌, ◌≤◌, unwrap_or};
ghost use Rattle.psci_board.specs.Board.{size_below, HasNodeIn};
ghost use Rattle.psci_tree.specs.Recount.{IsActivity, IsDomainTree, granted_at, known_at};
ghost use Rattle.psci_tree.specs.Changes.{all_off, made_pending, MayGrant, start_of_life, started};
ghost use Rattle.psci_tree.specs.Changes.{suspended, turned_off, with_confirmed, with_core_state};
ghost use Rattle.psci_tree.specs.Changes.{with_grant, with_path_cleared};

use crate::core_change::change_core;
use crate::depths::Depths;
use crate::domains::turn_off;
use crate::grants::{clear_up, depths_at, fill_rows, write};
use crate::tree::{BOOT_CORE, Tree};
use psci_board::{Core, Node, law_spans};
use psci_state::{Activity, Ask, Change, NEVER_STARTED};

impl Tree {
    /// Puts the tree to the start of a life, in place.
    #[tactic(auto, unfolding(crate::specs::Changes::start_of_life))]
    pub fn reset_life(&mut self)
        ensures value { self.new ≡ start_of_life self.old.levels }
        ensures levels { self.new.levels ≡ self.old.levels }
        ensures tree { IsDomainTree self.new }
    {
        self.turn_off();
        self.set_pending(BOOT_CORE);
    }

    /// Grants a depth to a domain. Another one than before is not confirmed.
    #[tactic(auto, using(crate::proofs::Seen::place_seen))]
    pub fn grant(&mut self, node: Node, depth: u8)
        requires domain { HasNodeIn self.old.levels node }
        requires depth { MayGrant self.old node depth }
        ensures value { self.new ≡ with_grant self.old node depth }
        ensures levels { self.new.levels ≡ self.old.levels }
        ensures tree { IsDomainTree self.new }
    {
        let depths = depths_at(&self.depths, node).grant(depth);
        write(&mut self.depths, node, depths);
    }

    /// Confirms what was granted to a domain.
    #[tactic(auto, using(crate::proofs::Seen::place_seen))]
    pub fn confirm(&mut self, node: Node)
        requires domain { HasNodeIn self.old.levels node }
        requires granted { 1 ≤ granted_at self.old node.level node.place }
        ensures value { self.new ≡ with_confirmed self.old node }
        ensures levels { self.new.levels ≡ self.old.levels }
        ensures tree { IsDomainTree self.new }
    {
        let depths = depths_at(&self.depths, node).confirm();
        write(&mut self.depths, node, depths);
    }

    /// A core is suspended, with this ask.
    #[tactic(auto, unfolding(crate::specs::Changes::suspended))]
    pub fn set_ask(&mut self, core: Core, ask: Ask)
        requires { core.number < size_below self.old.levels }
        ensures value { self.new ≡ suspended self.old core.number ask }
        ensures levels { self.new.levels ≡ self.old.levels }
        ensures tree { IsDomainTree self.new }
    {
        self.set_core(core, Activity::Suspended(ask), None);
    }

    /// A core is off, or going off.
    #[tactic(auto, unfolding(crate::specs::Changes::turned_off))]
    pub fn set_off(&mut self, core: Core)
        requires { core.number < size_below self.old.levels }
        ensures value { self.new ≡ turned_off self.old core.number }
        ensures levels { self.new.levels ≡ self.old.levels }
        ensures tree { IsDomainTree self.new }
    {
        self.set_core(core, Activity::Away, None);
    }

    /// A core is pending: nothing is granted or confirmed any more on its path.
    #[tactic(auto, unfolding(crate::specs::Changes::made_pending))]
    pub fn set_pending(&mut self, core: Core)
        requires { core.number < size_below self.old.levels }
        ensures value { self.new ≡ made_pending self.old core.number }
        ensures levels { self.new.levels ≡ self.old.levels }
        ensures tree { IsDomainTree self.new }
    {
        self.set_core(core, Activity::Active, None);
        self.clear_path(core);
    }

    /// A core runs in its start of this number: nothing is granted or confirmed any more on its
    /// path.
    #[tactic(auto, unfolding(crate::specs::Changes::started))]
    pub fn set_start(&mut self, core: Core, number: u32)
        requires { core.number < size_below self.old.levels }
        ensures value { self.new ≡ started self.old core.number number }
        ensures levels { self.new.levels ≡ self.old.levels }
        ensures tree { IsDomainTree self.new }
    {
        self.set_core(core, Activity::Active, Some(number));
        self.clear_path(core);
    }

    /// Changes what a core does, after the start of this number, if there was one.
    pub(crate) fn set_core(&mut self, core: Core, activity: Activity, started: Option<u32>)
        requires core { core.number < size_below self.old.levels }
        requires activity { IsActivity activity }
        ensures value { self.new ≡ with_core_state self.old core.number activity
            (unwrap_or started (known_at self.old core.number)) }
        ensures levels { self.new.levels ≡ self.old.levels }
        ensures tree { IsDomainTree self.new }
    {
        let number = core.number as usize;
        let before = self.cores[number];
        let state = before.changed(&Change { activity, started });
        change_core(
            &mut self.cores,
            &mut self.kept,
            &self.board,
            core,
            &self.ways[number],
            &state,
        );
    }

    /// Takes away what is granted and confirmed on the path of a core.
    fn clear_path(&mut self, core: Core)
        requires { core.number < size_below self.old.levels }
        ensures value { self.new ≡ with_path_cleared self.old core.number }
        ensures levels { self.new.levels ≡ self.old.levels }
        ensures tree { IsDomainTree self.new }
    {
        let own = Node {
            level: 0,
            place: core.number,
        };
        // no domain above is granted more than the core
        if self.granted(own) == 0 {
            return;
        }
        let way = &self.ways[core.number as usize];
        clear_up(&mut self.depths, &self.board, core, way);
    }

    /// Turns off every core, and grants depth 3 to every domain, which is confirmed.
    fn turn_off(&mut self)
        ensures value { self.new ≡ all_off self.old.levels }
        ensures levels { self.new.levels ≡ self.old.levels }
        ensures tree { IsDomainTree self.new }
    {
        law_spans();
        turn_off(&mut self.kept);
        fill_rows(&mut self.depths, Depths::DEEPEST);
        self.cores.fill(NEVER_STARTED);
    }
}
