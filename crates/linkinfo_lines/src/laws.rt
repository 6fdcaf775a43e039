//! Laws of the result lines, each the contract of a function without code.

ghost use Rattle.std.specs.Prelude.{
  ◌≡◌,
  ◌≢◌,
  ◌⊎◌,
  ◌↔◌,
  ℕ,
  ◌<◌,
  ◌*◌,
  List,
  [],
  ◌∷◌,
  ◌++◌,
  length,
  codes,
  Err,
  Some,
  IsTrue,
  All,
};
ghost use Rattle.std.specs.List.{AllPass};
ghost use Rattle.hex.specs.Hex.{IsBytes, encode_upper, is_hex_digit};
ghost use Rattle.nla_frame.specs.Answers.{verdict};
ghost use Rattle.nla_frame.specs.Attribute.{Attribute, ListFits};
ghost use Rattle.nla_frame.specs.Error.{memory_error};
ghost use Rattle.linkinfo_data.specs.BytesLayer.{bytes_layer};
ghost use Rattle.linkinfo.specs.Comparing.{same_answer};
ghost use Rattle.linkinfo.specs.Strings.{alike_strings, reading};
ghost use Rattle.linkinfo_lines.specs.Answers.{
  answer_of,
  bad_line,
  bytes_of,
  canon_answer,
  check_answer,
  comparison_answer,
  line_answer,
  list_fits,
  word_of,
};

use crate::streams::RunError;
use linkinfo::Bytes;

/// The result of an input is that of its lines, one after another, and each depends on its line
/// alone.
pub fn line_by_line()
    ensures none { answer_of [] ≡ [] }
    ensures line { (line rest : List ℕ) → All (λ b. b ≢ 10) line →
        answer_of (line ++ 10 ∷ rest) ≡ line_answer line ++ answer_of rest }
    ensures last { (line : List ℕ) → All (λ b. b ≢ 10) line → line ≢ [] →
        answer_of line ≡ line_answer line }
{}

/// The results of the three commands; the result of every other line is `bad line`. An operand with
/// a space in it is invalid.
pub fn commands()
    ensures check { (word : List ℕ) →
        line_answer (codes "check " ++ word) ≡ check_answer word ++ 10 ∷ [] }
    ensures canon { (word : List ℕ) →
        line_answer (codes "canon " ++ word) ≡ canon_answer word ++ 10 ∷ [] }
    ensures same { (first second : List ℕ) → All (λ b. b ≢ 32) first →
        line_answer (codes "same " ++ (first ++ 32 ∷ second))
        ≡ comparison_answer first second ++ 10 ∷ [] }
    ensures one_word { (line : List ℕ) → All (λ b. b ≢ 32) line →
        line_answer line ≡ bad_line ++ 10 ∷ [] }
    ensures other_verb { (verb operands : List ℕ) → All (λ b. b ≢ 32) verb →
        verb ≢ codes "check" → verb ≢ codes "canon" → verb ≢ codes "same" →
        line_answer (verb ++ 32 ∷ operands) ≡ bad_line ++ 10 ∷ [] }
{}

/// An operand is `-`, for no bytes, or an even number of hex digits, at least two. The operand that
/// `canon` writes decodes to the bytes that it encodes, and so does the operand with upper case
/// digits.
pub fn hex_words()
    ensures named { (word bytes : List ℕ) → bytes_of word ≡ Some bytes →
        ((word ≡ codes "-") × (bytes ≡ []))
        ⊎ (AllPass is_hex_digit word × (0 < length bytes) × (length word ≡ 2 * length bytes)) }
    ensures written { (bytes : List ℕ) → IsBytes bytes → bytes_of (word_of bytes) ≡ Some bytes }
    ensures upper { (bytes : List ℕ) → IsBytes bytes → bytes ≢ [] →
        bytes_of (encode_upper bytes) ≡ Some bytes }
{}

/// The test by which `canon` writes `unfit` is that of the format.
pub fn fitting()
    ensures { (attributes : List Attribute) → IsTrue (list_fits attributes) ↔ ListFits attributes }
{}

/// No result is a failed allocation: none of the errors that `check`, `canon` and `same` write is.
pub fn no_memory()
    ensures check { (s : List ℕ) → verdict (reading bytes_layer s) ≢ Err memory_error }
    ensures canon { (s : List ℕ) → reading bytes_layer s ≢ Err memory_error }
    ensures same { (a b : List ℕ) →
        same_answer (reading bytes_layer a) (reading bytes_layer b) (alike_strings bytes_layer a b)
        ≢ Err memory_error }
{
    linkinfo::laws::no_memory::<Bytes>();
}

/// `==` of two errors of a run returns true if and only if they are equal.
pub fn equal_errors()
    ensures { (a b : RunError) → IsTrue (⟦<RunError as PartialEq>⟧.eq a b) ↔ (a ≡ b) }
{}
