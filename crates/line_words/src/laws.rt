//! What holds of every word.
ghost use Rattle.std.specs.Prelude.{ℕ, ◌≡◌, ◌<◌, ◌^◌, ◌++◌, ◌∷◌, List, Some};
ghost use Rattle.std.specs.List.{list_all};
ghost use Rattle.std.specs.Fmt.{decimal};
ghost use Rattle.hex.specs.Hex.{encode_lower, IsBytes};
ghost use Rattle.pcep_word.specs.Address.{text_of};
ghost use Rattle.asks.specs.Words.{cut_at_space, long_number_in, number_in};
ghost use Rattle.line_words.specs.Words.{IsWord, bytes_in};

/// Shows that numbers, addresses and bytes are written as words, that a word ends at the space after it, and that numbers
/// and bytes are read again.
pub fn words_are_read_again()
    ensures numbers { (n : ℕ) → n < 2 ^ 32 → number_in (decimal n) ≡ Some n }
    ensures long_numbers { (n : ℕ) → n < 2 ^ 64 → long_number_in (decimal n) ≡ Some n }
    ensures bytes { (bytes : List ℕ) → IsBytes bytes → bytes_in (encode_lower bytes) ≡ Some bytes }
    ensures number_words { (n : ℕ) → n < 2 ^ 64 → IsWord (decimal n) }
    ensures byte_words { (bytes : List ℕ) → IsWord (encode_lower bytes) }
    ensures address_words { (a : ℕ) → IsWord (text_of a) }
    ensures ends { (word rest : List ℕ) → IsWord word → cut_at_space (word ++ 32 ∷ rest) ≡ Some (word, rest) }
{}
