//! Laws of the grammar.
ghost use Rattle.std.specs.Prelude.{◌≡◌, ◌<◌, ◌≤◌, ◌^◌, ◌↔◌, ℕ, Bool, List, [], ◌∷◌, length, codes, Some, Ok};
ghost use Rattle.std.specs.Fmt.{decimal};
ghost use Rattle.arc_data.specs.declared.command.TheConstants.{MAX_MS};
ghost use Rattle.arc_script.specs.declared.step.Step.TheVariants.{Call};
ghost use Rattle.arc_script.specs.Grammar.{new_control, get_control, set_control, step_of};
ghost use Rattle.arc_script.specs.Spelling.{IsWord, line, state_word};
ghost use Rattle.arc_script.specs.Words.{number_of};

/// A number of 64 bits has one spelling, which is the one that is printed.
pub fn numbers_have_one_spelling()
    ensures { (word : List ℕ) (n : ℕ) → n < 2 ^ 64 → (number_of word ≡ Some n) ↔ (word ≡ decimal n) }
{}

/// The line that spells a step is read as that step.
pub fn spelled_lines_are_read()
    ensures new { (at_ms token : ℕ) (name : List ℕ) →
        at_ms ≤ MAX_MS → token < 2 ^ 64 → IsWord name → length name ≤ 64 →
        step_of (line (codes "new" ∷ codes "0" ∷ decimal at_ms ∷ decimal token ∷ name ∷ []))
        ≡ Ok (Call 0 at_ms token (new_control name)) }
    ensures get { (at_ms token control : ℕ) →
        at_ms ≤ MAX_MS → token < 2 ^ 64 → control < 2 ^ 64 →
        step_of (line (codes "get" ∷ codes "0" ∷ decimal at_ms ∷ decimal token ∷ decimal control ∷ []))
        ≡ Ok (Call 0 at_ms token (get_control control)) }
    ensures set { (at_ms token control : ℕ) (on : Bool) →
        at_ms ≤ MAX_MS → token < 2 ^ 64 → control < 2 ^ 64 →
        step_of (line (codes "set" ∷ codes "0" ∷ decimal at_ms ∷ decimal token ∷ decimal control ∷ state_word on ∷ []))
        ≡ Ok (Call 0 at_ms token (set_control control on)) }
{}
