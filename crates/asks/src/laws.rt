//! What holds of every bandwidth.
ghost use Rattle.std.specs.Prelude.{ℕ, ◌≡◌, ◌<◌, ◌^◌, Some};
ghost use Rattle.pcep_word.specs.Word.{IsBandwidth};
ghost use Rattle.asks.specs.Rates.{bandwidth_or_rate_in, rate_in, rate_text};

/// Shows that what `Rate` writes is read as exactly the bandwidth that it was written for.
pub fn rates_are_read_again()
    ensures bytes { (n : ℕ) → n < 2 ^ 48 → rate_in (rate_text n) ≡ Some n }
    ensures bandwidths { (b : ℕ) → IsBandwidth b → bandwidth_or_rate_in (rate_text b) ≡ Some b }
{}
