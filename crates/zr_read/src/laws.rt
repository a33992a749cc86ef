ghost use Rattle.std.specs.Prelude.{◌≡◌, ℕ, List, ◌⊎◌};
ghost use Rattle.zr_source.specs.Sources.{SourceOf};
ghost use Rattle.zr_source.specs.SourceForms.{IsSource};
ghost use Rattle.zr_value.specs.declared.fault.GameFault.{GameFault};
ghost use Rattle.zr_read.specs.Texts.{StandsFor, HasFirstFault};

/// Any bytes stand for a source or have a first fault, and only one of these: they stand for one
/// source at most and have one first fault at most. A source that bytes stand for keeps the rules
/// of sources.
pub fn law_of_texts()
    ensures one { (bytes : List ℕ) → ((source : SourceOf) × StandsFor bytes source)
        ⊎ ((fault : GameFault) × (path : List ℕ) × HasFirstFault bytes fault path) }
    ensures one_source { (bytes : List ℕ) (source other : SourceOf) → StandsFor bytes source
        → StandsFor bytes other → source ≡ other }
    ensures one_fault { (bytes : List ℕ) (fault other : GameFault) (path further : List ℕ)
        → HasFirstFault bytes fault path → HasFirstFault bytes other further
        → (fault ≡ other) × (path ≡ further) }
    ensures source_or_fault { (bytes : List ℕ) (source : SourceOf) (fault : GameFault)
        (path : List ℕ) → StandsFor bytes source → HasFirstFault bytes fault path → ⊥ }
    ensures kept { (bytes : List ℕ) (source : SourceOf) → StandsFor bytes source
        → IsSource source }
{}
