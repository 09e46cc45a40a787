//! What holds of the definitions alone: each law is the contract of a function that does nothing.

ghost use Rattle.std.specs.Prelude.{◌≡◌, ◌⊎◌, ◌<◌, ◌≤◌, ℕ, List, [], ◌∷◌, ◌++◌, map, Some};
ghost use Rattle.psci_board.specs.Board.{BoardValue, IsBoard, height};
ghost use Rattle.psci_board.specs.declared.draft.Node.{Node};
ghost use Rattle.psci_messages.specs.declared.part.Part.{Part};
ghost use Rattle.psci_ctl_spec.specs.declared.call.CtlCall.{CtlCall};
ghost use Rattle.psci_ctl_spec.specs.Replies.{after, change, Effect, effect_of, reply};
ghost use Rattle.psci_ctl_spec.specs.Values.{CtlExchange, start_of_life, Values};
ghost use Rattle.psci_ctl_spec.specs.History.{AckLaws, AreCalls, AreValues, depth, IsApplied};
ghost use Rattle.psci_ctl_spec.specs.History.{IsCall, IsFirst, IsLegal, IsLive, legal_history};
ghost use Rattle.psci_ctl_spec.specs.History.{life, MayFollow, values_of};

/// The values that a history says are those of the first life's start before any call, and after
/// one more exchange those that the exchange leaves. So kept values say what the history says,
/// whichever exchanges it has.
pub fn law_values()
    ensures first { (b : BoardValue) → values_of b [] ≡ start_of_life b }
    ensures more { (b : BoardValue) (e : CtlExchange) (h : List CtlExchange)
        → values_of b (e ∷ h) ≡ after b e.call e.reply (values_of b h) }
{}

/// What the one reply to a call brings about: without a life nothing; no start beyond the start
/// limit, no life beyond the last; and parts are applied only where they are live and every child
/// of their domain is at least as deep.
pub fn law_replies()
    ensures { (b : BoardValue) (v : Values) (call : CtlCall) → IsBoard b → IsCall b call
        → MayFollow b v (effect_of b call (reply b v call)) }
{}

/// No more parts of a Down are acknowledged than it has, and it is stale exactly where a part was
/// left and the first one left is not live.
pub fn law_acknowledgements()
    ensures { (b : BoardValue) (v : Values) (c : ℕ) (ps : List Part) → AckLaws b v c ps }
{}

/// No core is ever started beyond the start limit, no life begins beyond the last, without a life
/// all starts are 0, and no domain is deeper than power-down.
pub fn law_limits()
    ensures first { (b : BoardValue) → IsBoard b → AreValues b (start_of_life b) }
    ensures change { (b : BoardValue) (v : Values) (e : Effect) → IsBoard b → AreValues b v
        → MayFollow b v e → AreValues b (change b e v) }
    ensures reply { (b : BoardValue) (v : Values) (call : CtlCall) → IsBoard b → AreValues b v
        → IsCall b call → AreValues b (after b call (reply b v call) v) }
    ensures legal { (b : BoardValue) (h : List CtlExchange) → IsBoard b → IsLegal b h
        → AreValues b (values_of b h) }
{}

/// To each list of calls there is exactly one history in which every reply is the one reply.
pub fn law_one_reply()
    ensures some { (b : BoardValue) (calls : List CtlCall) → AreCalls b calls
        → IsLegal b (legal_history b calls) }
    ensures only { (b : BoardValue) (h : List CtlExchange) → IsLegal b h
        → h ≡ legal_history b (map (λ e. e.call) h) }
{}

/// A part that was live and is so no more is never live again, whatever the calls and replies.
pub fn law_past()
    ensures { (b : BoardValue) (then_on since before : List CtlExchange) (life : ℕ) (n : Node)
        (sum : ℕ)
        → IsLive b before life n sum → (IsLive b (since ++ before) life n sum → ⊥)
        → IsLive b (then_on ++ (since ++ before)) life n sum → ⊥ }
{}

/// In a life a domain that is not fully on is as deep as a live part made it that was applied in
/// this life, or as at the life's start, with no core below it started since.
pub fn law_depths()
    ensures { (b : BoardValue) (h : List CtlExchange) (level place life_now : ℕ) → IsBoard b
        → IsLegal b h → level ≤ height b → life b h ≡ Some life_now → 0 < depth b h level place
        → IsApplied b h level place ⊎ IsFirst b h level place }
{}
