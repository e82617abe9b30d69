//! Laws of the definitions. Each function does nothing: its contract is the law.

ghost use Rattle.std.specs.Prelude.{◌≡◌, ◌↔◌, ℕ, ℤ, List, Bool, true, false, Some};
ghost use Rattle.path_grammar.specs.Characters.{Text, Shorthand, is_digit, is_name_char};
ghost use Rattle.path_grammar.specs.Grammar.{SegmentsAt, Spells};
ghost use Rattle.path_grammar.specs.Kept.{literal_kept, segments_kept};
ghost use Rattle.path_grammar.specs.Numbers.{Int, Number};
ghost use Rattle.path_grammar.specs.Profile.{InProfile, literal_left_out, segments_left_out};
ghost use Rattle.path_grammar.specs.Reading.{begins, goes_on_number, read_int, read_number, read_shorthand, read_string, read_whole};
ghost use Rattle.path_grammar.specs.Singular.{SingularSegmentsAt};
ghost use Rattle.path_grammar.specs.Strings.{StringLiteral};
ghost use Rattle.path_grammar.specs.Syntax.{Literal, Segments};

/// A text that spells a query in profile spells no other query.
pub fn spells_no_other_query()
    ensures { (t : Text) (q w : Segments) → Spells q t → InProfile q → Spells w t → w ≡ q }
{}

/// What reading from left to right answers is spelled, and what is spelled is its answer.
pub fn reading_is_the_grammar()
    ensures sound { (t : Text) (q : Segments) (left_out : Bool) → read_whole t ≡ Some (q, left_out) →
        (w : Segments) × Spells w t × (segments_kept w ≡ q) × (segments_left_out w ≡ left_out) }
    ensures complete { (t : Text) (w : Segments) → Spells w t → read_whole t ≡ Some (segments_kept w, segments_left_out w) }
{}

/// Each word of a query is read as its production has it: `member-name-shorthand`, `string-literal`, an index's `int`
/// and `number`; if what follows can't go on with the word, what is spelled is what is read.
pub fn words_are_their_productions()
    ensures names { (t : Text) (x : List ℕ × Text) → read_shorthand t ≡ Some x → Shorthand x.0 t x.1 }
    ensures names_back { (n : List ℕ) (t r : Text) → Shorthand n t r → begins is_name_char r ≡ false → read_shorthand t ≡ Some (n, r) }
    ensures strings { (t : Text) (x : List ℕ × Text) → read_string t ≡ Some x → StringLiteral x.0 t x.1 }
    ensures strings_back { (s : List ℕ) (t r : Text) → StringLiteral s t r → read_string t ≡ Some (s, r) }
    ensures ints { (t : Text) (x : ℤ × Text) → read_int t ≡ Some x → Int x.0 t x.1 }
    ensures ints_back { (z : ℤ) (t r : Text) → Int z t r → begins is_digit r ≡ false → read_int t ≡ Some (z, r) }
    ensures numbers { (t : Text) (x : Literal × Bool × Text) → read_number t ≡ Some x →
        (l : Literal) × Number l t x.2 × (literal_kept l ≡ x.0) × (literal_left_out l ≡ x.1) }
    ensures numbers_back { (l : Literal) (t r : Text) → Number l t r → begins goes_on_number r ≡ false →
        read_number t ≡ Some (literal_kept l, literal_left_out l, r) }
{}

/// The segments that the grammar marks as singular are `singular-query-segments` (RFC 9535, section 2.3.5.1).
pub fn singular_segments_are_the_standards()
    ensures { (q : Segments) (t r : Text) → SegmentsAt q true t r ↔ SingularSegmentsAt q t r }
{}
