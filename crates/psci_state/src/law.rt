//! What holds of power state words.

ghost use Rattle.std.specs.Prelude.{◌≡◌, ℕ, ◌^◌, ◌<◌, ◌≤◌, ◌↔◌, List, IsTrue};
ghost use Rattle.psci_abi.specs.declared.registers.Format.{Format};
ghost use Rattle.psci_state.specs.PowerState.{ask_of, highest_of, is_ask, IsAsk, word_of};

/// Power state words and asks give each other back, in both formats.
pub fn law_power_states()
    // The word of an ask is a power state of every board that is high enough.
    ensures written { (format : Format) (height : ℕ) (ask : List ℕ) → IsAsk ask
        → highest_of ask ≤ height → ask_of format height (word_of format ask) ≡ Ok ask }

    // No other word is one, and what a power state asks is an ask for the board.
    ensures read { (format : Format) (height word : ℕ) (ask : List ℕ) → word < 2 ^ 32
        → ask_of format height word ≡ Ok ask → word_of format ask ≡ word }
    ensures shape { (format : Format) (height word : ℕ) (ask : List ℕ)
        → ask_of format height word ≡ Ok ask → IsAsk ask × (highest_of ask ≤ height) }

    // What is tested of a state id is that it holds an ask.
    ensures test { (depths : List ℕ) → IsTrue (is_ask depths) ↔ IsAsk depths }
{}
