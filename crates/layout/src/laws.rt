//! Laws of formats and of pieces, for values of any type. The functions do nothing: their contracts
//! are the laws.

ghost use Rattle.std.specs.Prelude.{◌≡◌, ◌+◌, ◌-◌, ◌≤◌, ◌<◌, ◌⊎◌, ℕ, List, [], ◌++◌, length, Ok, Err, Some, None};
ghost use Rattle.layout.specs.Place.{Place, Took};
ghost use Rattle.layout.specs.Format.{AreBytes, Format, Spells, FirstFault, done, inside, reads, settled};
ghost use Rattle.layout.specs.Streams.{Progress, whole, partial, IsDecided, Leads};
ghost use Rattle.layout.specs.Whole.{WholeFault};
ghost use Rattle.layout.specs.Pieces.{Piece, cannot, text};
ghost use Rattle.layout.specs.PieceLaws.{Writes};
ghost use Rattle.layout.specs.declared.fault.ReadFault.{ReadFault};
ghost use Rattle.layout.specs.declared.fault.WriteFault.{WriteFault};
ghost use Rattle.layout.specs.declared.limits.TheConstants.{MAX_CLASS_BYTES};
ghost use Rattle.layout.specs.declared.fault.WriteFault.TheVariants.{DoesNotFit};

/// Reading by a format returns a value exactly where bytes in front spell it, and then it takes
/// exactly these; otherwise it returns the first fault.
pub fn reading_is_spelling<V>()
    ensures found { (f : Format V) (at : ℕ) (bytes : List ℕ) (x : V × Place)
        → reads f at bytes ≡ Ok x
        → (first : List ℕ) × Spells f first x.0 × Took first (record { at = at; rest = bytes }) x.1 }
    ensures only { (f : Format V) (at : ℕ) (first others : List ℕ) (v : V)
        → Spells f first v
        → reads f at (first ++ others) ≡ Ok (v, record { at = at + length first; rest = others }) }
    ensures fault { (f : Format V) (at : ℕ) (bytes : List ℕ) (e : ReadFault)
        → reads f at bytes ≡ Err e → FirstFault f at bytes e }
    ensures refused { (f : Format V) (at : ℕ) (bytes : List ℕ) (e : ReadFault)
        → FirstFault f at bytes e → reads f at bytes ≡ Err e }
    // no bytes spell two values, and no spelling begins another
    ensures one { (f : Format V) (a b x : List ℕ) (v w : V)
        → Spells f a v → Spells f b w → a ≡ b ++ x → (x ≡ []) × (v ≡ w) }
{}

/// The body of an attribute that is read by field is spelled by all of its bytes; what passes its
/// end, and what is left of it, is the attribute's fault (JVMS 4.7).
pub fn body_is_whole<A, V>()
    ensures spelled { (n : ℕ) (body : List ℕ) (f : Format A) (make : A → V) (bytes : List ℕ) (w : V)
        → Spells (inside n body f (λ v. done (make v))) bytes w
        → (v : A) × Spells f body v × (bytes ≡ []) × (make v ≡ w) }
    ensures spells { (n : ℕ) (body : List ℕ) (f : Format A) (make : A → V) (v : A)
        → Spells f body v → Spells (inside n body f (λ v. done (make v))) [] (make v) }
    ensures read { (n : ℕ) (body : List ℕ) (f : Format A) (make : A → V) (at : ℕ) (bytes : List ℕ)
        → length body ≤ at
        → reads (inside n body f (λ v. done (make v))) at bytes
        ≡ settled (at - n - 6) make (record { at = at; rest = bytes }) (reads f (at - length body) body) }
{}

/// Bytes that are to be one spelling, all of them, are one or have a first fault: never both, and one fault alone.
/// Bytes that are left over are a fault, as `behind` tells.
pub fn whole_is_spelling<V>()
    ensures either { (f : Format V) (behind : ℕ → ReadFault) (bytes : List ℕ)
        → ((v : V) × Spells f bytes v) ⊎ ((e : ReadFault) × WholeFault f behind bytes e) }
    ensures apart { (f : Format V) (behind : ℕ → ReadFault) (bytes : List ℕ) (v : V) (e : ReadFault)
        → Spells f bytes v → WholeFault f behind bytes e → ⊥ }
    ensures one { (f : Format V) (behind : ℕ → ReadFault) (bytes : List ℕ) (d e : ReadFault)
        → WholeFault f behind bytes d → WholeFault f behind bytes e → d ≡ e }
{}

/// Where a format spells the values whose pieces are plain, a value is refused exactly where no
/// bytes within the limit spell it, and what was read is written as it was.
pub fn writing_is_spelling<V>()
    ensures spells { (f : Format V) (pieces : V → List Piece) (v : V)
        → Writes f pieces → cannot (pieces v) ≡ None
        → Spells f (text (pieces v)) v × (length (text (pieces v)) ≤ MAX_CLASS_BYTES) }
    ensures refused { (f : Format V) (pieces : V → List Piece) (v : V) (e : WriteFault) (bytes : List ℕ)
        → Writes f pieces → cannot (pieces v) ≡ Some e → AreBytes bytes → Spells f bytes v
        → (e ≡ DoesNotFit) × (MAX_CLASS_BYTES < length bytes) }
    ensures back { (f : Format V) (pieces : V → List Piece) (v : V) (bytes : List ℕ)
        → Writes f pieces → AreBytes bytes → length bytes ≤ MAX_CLASS_BYTES → Spells f bytes v
        → (cannot (pieces v) ≡ None) × (text (pieces v) ≡ bytes) }
    // a value has one spelling
    ensures one { (f : Format V) (pieces : V → List Piece) (v : V) (a b : List ℕ)
        → Writes f pieces → AreBytes a → AreBytes b → Spells f a v → Spells f b v → a ≡ b }
{}

/// Bytes that are read from a stream, part by part, lead to the end of a format exactly where they spell a value within
/// the limit; and of each stream exactly one front decides, where any does.
pub fn streams_are_decided<V>()
    ensures spelled { (f : Format V) (given : List ℕ) (v : V)
        → Leads f 0 given (whole v) → Spells f given v × (length given ≤ MAX_CLASS_BYTES) }
    ensures whole { (f : Format V) (given : List ℕ) (v : V)
        → Spells f given v → length given ≤ MAX_CLASS_BYTES → Leads f 0 given (whole v) }
    ensures one { (f : Format V) (a b x y : List ℕ) (p q : Progress V)
        → IsDecided p → IsDecided q → a ++ x ≡ b ++ y → Leads f 0 a p → Leads f 0 b q → (a ≡ b) × (p ≡ q) }
    ensures either { (f : Format V) (stream : List ℕ)
        → ((front : List ℕ) × (rest : List ℕ) × (p : Progress V) × (stream ≡ front ++ rest) × IsDecided p
        × Leads f 0 front p)
        ⊎ ((at : ℕ) × Leads f 0 stream (partial at)) }
{}
