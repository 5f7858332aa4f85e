ghost use Rattle.std.specs.Prelude.{◌≡◌, ◌≢◌, ◌^◌, ◌<◌, ◌≤◌, ℕ, Bool, true, false, List, [], ◌∷◌, length, bit_xor, Option, Some, None, IfSome};
ghost use Rattle.lf_num.specs.Toggles.{struck, IsPlaceSet};

/// A code that protects values against flips of their bits.
///
/// Contracts see a code as the number that its bits make. Its meaning is told by `encoded`, the bits of a value, and by
/// `answer`, what a read answers by the value and the set of bits that were turned since it was encoded.
pub trait Protect {
    /// What is protected.
    type Value: Copy;
    /// The bits that are kept of a value.
    type Code: Copy;
    /// What a read gives.
    type Answer;

    /// The number of bits of a code.
    const BITS: u8;
    /// The flips that a code takes between two writes.
    const BUDGET: u8;

    ghost BITS: { ℕ };

    ghost BUDGET: { ℕ };

    // The bits of a code as one number.
    ghost number: { Self.Code → ℕ };

    // A value has an encoding: this number.
    ghost is_value: { Self.Value → Bool };

    ghost encoded: { Self.Value → ℕ };

    // What a read answers, by the value and the set of bits that were turned.
    ghost answer: { Self.Value → List ℕ → Self.Answer };

    // The value that an answer shows, if it shows one, and whether it tells of no fault.
    ghost shown: { Self.Answer → Option Self.Value };

    ghost is_clean: { Self.Answer → Bool };

    /// The code of a value.
    fn fresh(v: Self::Value) -> Self::Code
        ensures code { number result ≡ encoded v }
        ensures fits { number result < 2 ^ BITS }
        ensures value { is_value v ≡ true };

    /// What a code reads as that is the code of a value: nothing is computed.
    fn unstruck(c: Self::Code) -> Self::Answer
        ensures { (v : Self.Value) → is_value v ≡ true → number c ≡ encoded v → result ≡ answer v [] };

    /// What a code reads as. Of more turned bits than the budget nothing is promised.
    fn read(c: Self::Code) -> Self::Answer
        requires { number c < 2 ^ BITS }
        ensures { (v : Self.Value) (turned : List ℕ) → is_value v ≡ true → IsPlaceSet BITS turned → length turned ≤ BUDGET → number c ≡ struck (encoded v) turned
            → result ≡ answer v turned };

    /// A code with one bit turned.
    fn turn(c: Self::Code, bit: u8) -> Self::Code
        requires code { number c < 2 ^ BITS }
        requires bit { bit < BITS }
        ensures bits { number result ≡ bit_xor (number c) (2 ^ bit) }
        ensures fits { number result < 2 ^ BITS };

    // A fresh encoding fits its bits and reads back.
    ghost encoding_fits: { (v : Self.Value) → is_value v ≡ true → encoded v < 2 ^ BITS };

    ghost reads_back: { (v : Self.Value) → is_value v ≡ true → (shown (answer v []) ≡ Some v) × (is_clean (answer v []) ≡ true) };

    // One flip is told, and put right or detected: no other value is shown.
    ghost one_flip: { (v : Self.Value) (bit : ℕ) → is_value v ≡ true → bit < BITS
        → (is_clean (answer v (bit ∷ [])) ≡ false) × IfSome (shown (answer v (bit ∷ []))) (λ w. w ≡ v) };

    // Where the budget is two, two different flips are detected, and one bit flipped twice gives the fresh encoding, which
    // reads clean.
    ghost two_flips: { (v : Self.Value) (a b : ℕ) → BUDGET ≡ 2 → is_value v ≡ true → a < BITS → b < BITS → b ≢ a
        → (is_clean (answer v (a ∷ b ∷ [])) ≡ false) × (shown (answer v (a ∷ b ∷ [])) ≡ None) };

    ghost turned_back: { (v : Self.Value) (bit : ℕ) → BUDGET ≡ 2 → is_value v ≡ true → bit < BITS
        → bit_xor (bit_xor (encoded v) (2 ^ bit)) (2 ^ bit) ≡ encoded v };
}
