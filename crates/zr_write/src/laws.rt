ghost use Rattle.std.specs.Prelude.{◌≡◌, ℕ, Bool, false, List, Ok};
ghost use Rattle.zr_source.specs.Sources.{SourceOf};
ghost use Rattle.zr_source.specs.SourceForms.{IsSource};
ghost use Rattle.zr_read.specs.Passes.{source_in};
ghost use Rattle.zr_read.specs.Texts.{StandsFor};
ghost use Rattle.zr_write.specs.Canonical.{source_data};
ghost use Rattle.zr_write.specs.Written.{IsWritten, needs_lows};

/// A source's value is read as that source: in format 2 each source that keeps the rules, and in
/// format 1 each of them whose lower bounds are all 0. So its text stands for it.
pub fn law_of_reading_back()
    ensures value { (lows : Bool) (source : SourceOf) → IsSource source
        → (lows ≡ false → needs_lows source ≡ false)
        → source_in (source_data lows source) ≡ Ok source }
    ensures text { (lows : Bool) (source : SourceOf) (bytes : List ℕ) → IsSource source
        → (lows ≡ false → needs_lows source ≡ false) → IsWritten lows source bytes
        → StandsFor bytes source }
{}
