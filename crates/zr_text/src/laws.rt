ghost use Rattle.std.specs.Prelude.{◌≡◌, ◌≢◌, ◌↔◌, ◌^◌, ◌<◌, ◌⊎◌, ◌∷◌, [], ℕ, List, Some, length, map, slice_get, true};
ghost use Rattle.zr_game.specs.Named.{NamedOf};
ghost use Rattle.zr_tree.specs.Nodes.{NodeOf};
ghost use Rattle.zr_cases.specs.Cases.{BNodeOf, RNodeOf};
ghost use Rattle.zr_cert.specs.Certs.{BoundOf, BoxVerdict, CertOf, CoverVerdict, EmptyVerdict, MixtureOf, ProfileVerdict};
ghost use Rattle.zr_cert.specs.Forms.{IsCert};
ghost use Rattle.zr_cert.specs.Lines.{line_count};
ghost use Rattle.zr_cert.specs.Places.{case_line_number, cost_line_number, cover_line_number, player_line_number};
ghost use Rattle.zr_form.specs.Lines.{lines_of};
ghost use Rattle.zr_form.specs.Reading.{Bytes};
ghost use Rattle.zr_text.specs.Faults.{IsText, IsTextFault};
ghost use Rattle.zr_text.specs.Fits.{Fits};
ghost use Rattle.zr_lines.specs.Spelling.{box_line, case_line, node_line};
ghost use Rattle.zr_text.specs.Numbered.{StandFrom};
ghost use Rattle.zr_text.specs.Spelling.{bound_lines, cover_lines, end_line, form_line, kind_line, strategy_lines, text_of, verdict_line};
ghost use Rattle.zr_text.specs.declared.fault.TextError.{TextError};
ghost use Rattle.zr_text.specs.declared.fault.TextError.TheVariants.{NoMemory};

/// Certificates and their texts: each certificate has one text, no other certificate has it, and
/// bytes that are no text have exactly one fault. What a certificate keeps says that it has a text, with
/// as many lines as are counted.
pub fn law_of_cert_texts()
    ensures one { (c d : CertOf) → Fits true c → Fits true d → text_of c ≡ text_of d → c ≡ d }
    ensures apart { (c : CertOf) (bytes : Bytes) → IsText c bytes → (fault : TextError) → IsTextFault bytes fault → fault ≡ NoMemory }
    ensures fault_is_one { (bytes : Bytes) (first second : TextError) → IsTextFault bytes first → IsTextFault bytes second → first ≢ NoMemory → second ≢ NoMemory → first ≡ second }
    ensures decided { (bytes : Bytes) → ((c : CertOf) × IsText c bytes) ⊎ ((fault : TextError) × (fault ≢ NoMemory) × IsTextFault bytes fault) }
    ensures kept { (c : CertOf) → IsCert c ↔ (Fits true c × (line_count c < 2 ^ 32)) }
    ensures lines { (c : CertOf) → Fits true c → length (lines_of (text_of c)) ≡ line_count c }
{}

/// Where the lines of a certificate stand in its text: those of a player's strategy, cost and
/// tree, of its cover with its points and rays, of the refutation, and of a tree alone.
pub fn law_of_line_numbers()
    ensures heading { (c : CertOf) → Fits true c → StandFrom (text_of c) 1
        (form_line ∷ kind_line c.kind c.players ∷ verdict_line c.verdict ∷ []) }
    ensures players { (c : CertOf) → Fits true c
        → (mixtures : List MixtureOf) (bounds : List BoundOf)
        → c.verdict ≡ ProfileVerdict mixtures bounds
        → (i : ℕ) (m : MixtureOf) → slice_get mixtures i ≡ Some m
        → StandFrom (text_of c) (player_line_number mixtures i) (strategy_lines i m) }
    ensures costs { (c : CertOf) → Fits true c
        → (mixtures : List MixtureOf) (bounds : List BoundOf)
        → c.verdict ≡ ProfileVerdict mixtures bounds
        → (i : ℕ) (b : BoundOf) → slice_get bounds i ≡ Some b
        → StandFrom (text_of c) (cost_line_number mixtures bounds i) (bound_lines i b) }
    ensures covers { (c : CertOf) → Fits true c
        → (covers : List (List NodeOf)) (named : List (List NamedOf)) (proof : List RNodeOf)
        → c.verdict ≡ CoverVerdict covers named proof
        → (i : ℕ) (cover : List NodeOf) (items : List NamedOf)
        → slice_get covers i ≡ Some cover → slice_get named i ≡ Some items
        → StandFrom (text_of c) (cover_line_number covers named i) (cover_lines i (cover, items)) }
    ensures cases { (c : CertOf) → Fits true c
        → (covers : List (List NodeOf)) (named : List (List NamedOf)) (proof : List RNodeOf)
        → c.verdict ≡ CoverVerdict covers named proof
        → StandFrom (text_of c) (case_line_number covers named) (map case_line proof) }
    ensures tree { (c : CertOf) → Fits true c → (i : ℕ) (tree : List NodeOf)
        → c.verdict ≡ EmptyVerdict i tree → StandFrom (text_of c) 4 (map node_line tree) }
    ensures boxes { (c : CertOf) → Fits true c → (nodes : List BNodeOf)
        → c.verdict ≡ BoxVerdict nodes → StandFrom (text_of c) 4 (map box_line nodes) }
    ensures end { (c : CertOf) → Fits true c
        → StandFrom (text_of c) (line_count c) (end_line ∷ []) }
{}
