ghost use Rattle.std.specs.Prelude.{ℕ};
ghost use Rattle.zr_io.specs.Contents.{Bytes, Contents};
ghost use Rattle.zr_source.specs.Sources.{SourceOf};
ghost use Rattle.zr_words.specs.Words.{Words};
ghost use Rattle.zero.specs.Commands.{for_check};
ghost use Rattle.zero.specs.Answers.{IsSolved};
ghost use Rattle.zero.specs.Told.{IsCertStatus, IsStatus, IsToldCert, IsToldCheck};

/// A check accepts each certificate that was printed: where the text decides a game, and a second
/// call is told the bytes of that game and of this text, the status that its bytes settle is 0, but
/// for want of memory.
pub fn law_of_printed_certificates()
    ensures { (words checker : Words) (contents shelf : Contents) (text : Bytes)
        → (solved : IsSolved words contents text)
        → IsToldCheck checker shelf solved.asked.bytes text → (status : ℕ)
        → ((source : SourceOf) → IsToldCert checker shelf for_check source text
        → IsCertStatus for_check source text status) → IsStatus 0 status }
{}
