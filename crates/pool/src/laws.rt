//! Laws of the look-ups. The functions do nothing: their contracts are the laws.

ghost use Rattle.std.specs.Prelude.{◌≡◌, ◌↔◌, ℕ, List, Ok};
ghost use Rattle.pool.specs.Entries.{Entry};
ghost use Rattle.pool.specs.Lookups.{entry_at, text_at, class_name_at, name_and_type_at, field_ref_at, method_ref_at, dynamic_at, invoke_dynamic_at};
ghost use Rattle.pool.specs.Lookups.{Named, FieldOf, MethodOf, StandsAt, HasText, HasClassName, HasNameAndType, HasField, HasMethod, HasDynamic, HasInvokeDynamic};
ghost use Rattle.pool.specs.RefusedLookups.{RefusedAreMissing, OneIsMissing};

/// A look-up finds exactly what stands where its indices lead.
pub fn found_where_it_stands()
    ensures entry { (es : List Entry) (index : ℕ) (e : Entry)
        → (entry_at es index ≡ Ok e) ↔ StandsAt es index e }
    ensures text { (es : List Entry) (index : ℕ) (bytes : List ℕ)
        → (text_at es index ≡ Ok bytes) ↔ HasText es index bytes }
    ensures class_name { (es : List Entry) (index : ℕ) (bytes : List ℕ)
        → (class_name_at es index ≡ Ok bytes) ↔ HasClassName es index bytes }
    ensures name_and_type { (es : List Entry) (index : ℕ) (x : Named)
        → (name_and_type_at es index ≡ Ok x) ↔ HasNameAndType es index x }
    ensures field_ref { (es : List Entry) (index : ℕ) (x : FieldOf)
        → (field_ref_at es index ≡ Ok x) ↔ HasField es index x }
    ensures method_ref { (es : List Entry) (index : ℕ) (x : MethodOf)
        → (method_ref_at es index ≡ Ok x) ↔ HasMethod es index x }
    ensures dynamic { (es : List Entry) (index : ℕ) (x : Named)
        → (dynamic_at es index ≡ Ok x) ↔ HasDynamic es index x }
    ensures invoke_dynamic { (es : List Entry) (index : ℕ) (x : Named)
        → (invoke_dynamic_at es index ≡ Ok x) ↔ HasInvokeDynamic es index x }
{}

/// A refused look-up names the first index on its path at which nothing may be looked up, with 8, or nothing fitting
/// stands, with 9.
pub fn refused_where_nothing_fits()
    ensures refused { RefusedAreMissing }
    ensures one { OneIsMissing }
{}
