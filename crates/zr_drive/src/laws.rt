ghost use Rattle.std.specs.Prelude.{◌≡◌, ℕ};
ghost use Rattle.zr_game.specs.Forms.{IsGame};
ghost use Rattle.zr_game.specs.Players.{GameOf};
ghost use Rattle.zr_game.specs.declared.kind.Kind.{Kind as AKind};
ghost use Rattle.zr_cert.specs.Listed.{cert_of};
ghost use Rattle.zr_cert.specs.declared.cert.Cert.{Cert as ACert};
ghost use Rattle.zr_cert.specs.declared.fault.CertFault.{CertFault as AFault};
ghost use Rattle.zr_cert.specs.declared.fault.CertFault.TheVariants.{Wide};
ghost use Rattle.zr_check.specs.Checks.{CertRefused};
ghost use Rattle.zr_drive.specs.Ends.{IsTooWideCert};
ghost use Rattle.zr_drive.specs.Verdicts.{IsRightOf};

/// A certificate that ends the work because its check is too wide at a line is refused at this line
/// and at no other, and is none whose text could have been given.
pub fn law_of_wide_certificates()
    ensures line { (game : GameOf) (kind : AKind) (line : ℕ) (cert : ACert)
        → IsTooWideCert game kind line cert → (fault : AFault)
        → CertRefused game (cert_of cert) fault → fault ≡ Wide line }
    ensures apart { (game : GameOf) → IsGame game → (kind : AKind) (line : ℕ) (cert : ACert)
        → IsTooWideCert game kind line cert → IsRightOf game (cert_of cert) → ⊥ }
{}
