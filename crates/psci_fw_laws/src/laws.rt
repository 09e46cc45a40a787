//! What holds after every legal history: each law is the contract of a function that does nothing.

ghost use Rattle.std.specs.Prelude.{◌+◌, ◌<◌, ◌≡◌, ◌≤◌, List, slice_get, Some, ℕ};
ghost use Rattle.psci_board.specs.Board.{BoardValue, IsBoard, cores, height, up};
ghost use Rattle.psci_messages.specs.declared.part.Part.{Part};
ghost use Rattle.psci_messages.specs.declared.kind.Kind.TheVariants.{Down};
ghost use Rattle.psci_messages.specs.Message.{MessageValue};
ghost use Rattle.psci_messages.specs.declared.start.Start.{Start};
ghost use Rattle.psci_fw_spec.specs.declared.call.FwCall.TheVariants.{Enter};
ghost use Rattle.psci_fw_spec.specs.declared.outcome.Outcome.{Outcome};
ghost use Rattle.psci_fw_spec.specs.declared.reply.FwReply.TheVariants.{Out};
ghost use Rattle.psci_fw_spec.specs.Effects.{after, FwExchange, sent_messages};
ghost use Rattle.psci_fw_spec.specs.Answer.{answer};
ghost use Rattle.psci_fw_spec.specs.History.{values_of};
ghost use Rattle.psci_fw_spec.specs.Legal.{IsLegal};
ghost use Rattle.psci_fw_spec.specs.Changes.{start_of_life};
ghost use Rattle.psci_fw_spec.specs.Phases.{Pending, Running};
ghost use Rattle.psci_fw_spec.specs.Values.{Values};
ghost use Rattle.psci_fw_spec.specs.Invariant.{ask};
ghost use Rattle.psci_fw_laws.specs.Renumbered.{WasAsked};
ghost use Rattle.psci_fw_laws.specs.Messages.{AreGranted, AreQuiet, AreRising};
ghost use Rattle.psci_fw_laws.specs.Messages.{HasDeeper, IsClaimOn, IsCurrent};
ghost use Rattle.psci_fw_laws.specs.Messages.{known_below, NonePending, part_for};

/// Two claims on one domain in one life have different generations. None of the firmware's life is
/// newer than the known starts, and below a current one no core runs.
pub fn law_claimed()
    ensures apart { (b : BoardValue) (h : List FwExchange) → IsBoard b → IsLegal b h
        → AreRising b (sent_messages b h) }
    // So life, domain and generation name one claim.
    ensures once { (b : BoardValue) (h : List FwExchange) → IsBoard b → IsLegal b h
        → (life level place j k : ℕ) (m n : MessageValue) (p q : Part)
        → slice_get (sent_messages b h) j ≡ Some m → slice_get (sent_messages b h) k ≡ Some n
        → part_for b life level place m ≡ Some p → part_for b life level place n ≡ Some q
        → p.generation ≡ q.generation → j ≡ k }
    ensures older { (b : BoardValue) (h : List FwExchange) → IsBoard b → IsLegal b h
        → let v = values_of b h in
        (level place : ℕ) (p : Part) → IsClaimOn b v.life level place p (sent_messages b h)
        → p.generation ≤ known_below b v.known level place }
    ensures quiet { (b : BoardValue) (h : List FwExchange) → IsBoard b → IsLegal b h
        → let v = values_of b h in AreQuiet b v.life v.known v.phase (sent_messages b h) }
{}

/// When a Down was sent, no part of it was deeper than what its sender then asked of the domain,
/// nor than what each core below asked of itself, nor, in platform-coordinated mode, than what each
/// core below asked of the domain.
pub fn law_asked()
    ensures { (b : BoardValue) (h : List FwExchange) → IsBoard b → IsLegal b h
        → (k : ℕ) (m : MessageValue) → slice_get (sent_messages b h) k ≡ Some m → m.kind ≡ Down
        → WasAsked b h m }
{}

/// What is granted is what current claims say; no domain is granted more than the one below it on
/// a path, nor than a core below asks of itself, so below a granted domain no core runs or is
/// pending.
pub fn law_granted()
    ensures claims { (b : BoardValue) (h : List FwExchange) → IsBoard b → IsLegal b h
        → let v = values_of b h in
        AreGranted b v.life v.known v.phase v.granted (sent_messages b h) }
    ensures nested { (b : BoardValue) (h : List FwExchange) → IsBoard b → IsLegal b h
        → let v = values_of b h in (c level : ℕ) → c < cores b → level < height b
        → v.granted (level + 1) (up b (level + 1) c) ≤ v.granted level (up b level c) }
    ensures asked { (b : BoardValue) (h : List FwExchange) → IsBoard b → IsLegal b h
        → let v = values_of b h in (c level : ℕ) → c < cores b → level ≤ height b
        → v.granted level (up b level c) ≤ ask b v c 0 }
    ensures rests { (b : BoardValue) (h : List FwExchange) → IsBoard b → IsLegal b h
        → let v = values_of b h in (c level : ℕ) → c < cores b → level ≤ height b
        → 0 < v.granted level (up b level c)
        → (v.phase c ≡ Running → ⊥) × (v.phase c ≡ Pending → ⊥) }
    // Below a domain with a current claim and without a pending core each domain has a current
    // claim that is no less deep.
    ensures deeper { (b : BoardValue) (h : List FwExchange) → IsBoard b → IsLegal b h
        → let v = values_of b h in (c level : ℕ) (p : Part) → c < cores b → level < height b
        → IsClaimOn b v.life (level + 1) (up b (level + 1) c) p (sent_messages b h)
        → IsCurrent b v.known (level + 1) (up b (level + 1) c) p
        → NonePending b v.phase (level + 1) (up b (level + 1) c)
        → HasDeeper b v.life v.known level (up b level c) p.depth (sent_messages b h) }
{}

/// A firmware that was made anew and one that was kept are the same from the first entry of a later
/// life on: such an entry is answered alike, and leaves the same values, whatever was before it. So
/// a port may make the firmware anew at each reset of the system, while the power controller counts
/// the lives on.
pub fn law_new_life()
    ensures answer { (b : BoardValue) (v : Values) (c : ℕ) (s : Start) → v.life < s.life
        → answer b v c (Enter s) ≡ answer b (start_of_life b 0) c (Enter s) }
    ensures after { (b : BoardValue) (v : Values) (c : ℕ) (s : Start) (o : Outcome)
        → v.life < s.life
        → after b c (Enter s) (Out o) v ≡ after b c (Enter s) (Out o) (start_of_life b 0) }
{}
