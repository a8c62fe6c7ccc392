ghost use Rattle.std.specs.Prelude.{◌≡◌, ℕ, length, [], ◌∷◌};
ghost use Rattle.frame_code.specs.declared.frames.Frame.TheVariants.{Header, Promise};
ghost use Rattle.frame_code.specs.Codes.{frame_code};

/// Worked spellings: the promise of generation 1, the header of node 2 in cluster 7, and the size of each header.
pub fn frames_by_hand()
    ensures promise { frame_code (Promise 1) ≡ 2 ∷ 0 ∷ 0 ∷ 0 ∷ 0 ∷ 0 ∷ 0 ∷ 0 ∷ 8 ∷ 0 ∷ 0 ∷ 0 ∷ 0 ∷ 0 ∷ 0 ∷ 0 ∷ 1 ∷ [] }
    ensures header { frame_code (Header 1 2 7) ≡
        1 ∷ 0 ∷ 0 ∷ 0 ∷ 0 ∷ 0 ∷ 0 ∷ 0 ∷ 18 ∷
        1 ∷ 2 ∷ 0 ∷ 0 ∷ 0 ∷ 0 ∷ 0 ∷ 0 ∷ 0 ∷ 0 ∷ 0 ∷ 0 ∷ 0 ∷ 0 ∷ 0 ∷ 0 ∷ 0 ∷ 7 ∷ [] }
    ensures header_size { (version node cluster : ℕ) → length (frame_code (Header version node cluster)) ≡ 27 }
{}
