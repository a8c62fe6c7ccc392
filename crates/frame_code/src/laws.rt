ghost use Rattle.std.specs.Prelude.{◌≡◌, ℕ, ◌<◌, ◌^◌, [], ◌++◌, List, length};
ghost use Rattle.frame_code.specs.declared.frames.Frame.{Frame};
ghost use Rattle.frame_code.specs.Codes.{envelope, frame_code};
ghost use Rattle.frame_code.specs.Spelled.{IsSpelled};
ghost use Rattle.frame_code.specs.Fronts.{IsKind, IsFrameFront};

/// The law that a frame's bytes tell the frame and what stands behind it: a frame has one spelling, and no spelling
/// begins another.
pub fn frames_tell()
    ensures tells { (f g : Frame) (ps qs : List ℕ) → IsSpelled f → IsSpelled g →
        frame_code f ++ ps ≡ frame_code g ++ qs → (f ≡ g) × (ps ≡ qs) }
    ensures begins_no_other { (f g : Frame) (ps : List ℕ) → IsSpelled f → IsSpelled g →
        frame_code f ++ ps ≡ frame_code g → (f ≡ g) × (ps ≡ []) }
{}

/// The law that bytes which are less than an envelope begin with no frame.
pub fn fronts_are_no_frames()
    ensures { (bytes rest : List ℕ) (f : Frame) → IsFrameFront bytes → IsSpelled f → frame_code f ++ rest ≡ bytes → ⊥ }
{}

/// The law that each proper front of an envelope is less than an envelope, whatever its payload says, and so is each
/// proper front of a frame's bytes.
pub fn envelopes_have_fronts()
    ensures envelopes { (kind : ℕ) (payload bytes more : List ℕ) → IsKind kind → length payload < 2 ^ 64 →
        bytes ++ more ≡ envelope kind payload → (more ≡ [] → ⊥) → IsFrameFront bytes }
    ensures frames { (f : Frame) (bytes more : List ℕ) → IsSpelled f →
        bytes ++ more ≡ frame_code f → (more ≡ [] → ⊥) → IsFrameFront bytes }
{}
