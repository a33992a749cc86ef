ghost use Rattle.std.specs.Prelude.{◌≡◌, ◌↔◌, ℕ, length};
ghost use Rattle.zr_game.specs.Players.{GameOf};
ghost use Rattle.zr_game.specs.Forms.{IsGame};
ghost use Rattle.zr_cert.specs.declared.fault.CertFault.{CertFault};
ghost use Rattle.zr_cert.specs.declared.fault.CertFault.TheVariants.{Bad};
ghost use Rattle.zr_cert.specs.Certs.{CertOf};
ghost use Rattle.zr_cert.specs.Forms.{IsCert};
ghost use Rattle.zr_check.specs.Right.{IsRightCert, IsRightHead};
ghost use Rattle.zr_check.specs.Truth.{IsTrueVerdict};
ghost use Rattle.zr_check.specs.Checks.{CertPasses, CertRefused, HeadPasses, HeadRefused};
ghost use Rattle.zr_check.specs.WideSteps.{HasWideStep, HeadIsWide};

/// A right certificate's verdict is true: its profile is an equilibrium of its kind, or no profile
/// of the kind is one.
pub fn law_of_right_certs()
    ensures { (game : GameOf) → IsGame game → (c : CertOf) → IsRightCert game c
        → IsTrueVerdict game c.kind c.verdict }
{}

/// A certificate passes exactly where it is right and no step of its check is too wide. It is then
/// not refused, and a certificate that is refused has one fault. A right certificate breaks no rule:
/// it is refused only where a step is too wide.
pub fn law_of_checks()
    ensures passes { (game : GameOf) → IsGame game → (c : CertOf) → IsCert c
        → CertPasses game c ↔ (IsRightCert game c × (HasWideStep game c → ⊥)) }
    ensures apart { (game : GameOf) (c : CertOf) (fault : CertFault) → CertPasses game c
        → CertRefused game c fault → ⊥ }
    ensures one { (game : GameOf) (c : CertOf) (f g : CertFault) → CertRefused game c f
        → CertRefused game c g → f ≡ g }
    ensures unbroken { (game : GameOf) → IsGame game → (c : CertOf) → IsCert c → IsRightCert game c
        → (line : ℕ) → CertRefused game c (Bad line) → ⊥ }
    ensures head { (game : GameOf) (c : CertOf) → IsCert c
        → HeadPasses game c ↔ ((c.players ≡ length game) × IsRightHead game c.kind c.verdict
        × (HeadIsWide game c.verdict → ⊥)) }
    ensures head_apart { (game : GameOf) (c : CertOf) (fault : CertFault) → HeadPasses game c
        → HeadRefused game c fault → ⊥ }
    ensures head_one { (game : GameOf) (c : CertOf) (f g : CertFault) → HeadRefused game c f
        → HeadRefused game c g → f ≡ g }
{}
