ghost use Rattle.std.specs.Prelude.{◌≡◌, ℕ, ◌<◌, ◌^◌, List, [], ◌++◌};
ghost use Rattle.std.specs.List.{flat_map, AllByRecursion};
ghost use Rattle.cdb_outside.specs.Stores.{JoinsFront};
ghost use Rattle.frame_code.specs.Codes.{frame_code};
ghost use Rattle.frame_code.specs.Spelled.{IsSpelled};
ghost use Rattle.frame_code.specs.declared.frames.Frame.{Frame};
ghost use Rattle.store_log.specs.declared.standings.Standing.{Standing};
ghost use Rattle.store_log.specs.declared.standings.Standing.TheVariants.{Log};
ghost use Rattle.store_log.specs.Cuts.{StandsAfter, IsSettled};
ghost use Rattle.store_log.specs.Held.{Held, at_first, AllMay, after_all, HasFrames, StandsFor};
ghost use Rattle.store_log.specs.Holds.{Holds};
ghost use Rattle.store_log.specs.Keeps.{Stored, AreLeft};

/// The law that bytes stand for one thing at most, for each node and cluster.
pub fn standings_are_apart()
    ensures { (node cluster : ℕ) (bytes : List ℕ) (r s : Standing) → node < 256 → cluster < 2 ^ 128 →
        StandsFor node cluster bytes r → StandsFor node cluster bytes s → r ≡ s }
{}

/// The law that what an append leaves, wherever it was cut off, stands for what is held after some of its frames, from
/// the first on: for the state before it where none of them is whole.
pub fn cut_frames_stand()
    ensures { (node cluster : ℕ) (bytes cut more : List ℕ) (before frames : List Frame) →
        HasFrames node cluster bytes before [] → AllByRecursion IsSpelled frames →
        AllMay (after_all at_first before) frames → cut ++ more ≡ flat_map frame_code frames →
        StandsAfter node cluster (bytes ++ cut) (after_all at_first before) frames }
{}

/// The law that an adoption which is open at the end can be left out: the frames up to some place hold the same log and
/// the same generations as all of them, with no adoption open.
pub fn open_adoptions_can_go()
    ensures { (frames : List Frame) → AllMay at_first frames → IsSettled at_first frames }
{}

/// The law that frames which may follow what a store holds are held too once their bytes are behind it.
pub fn kept_frames_stand()
    ensures { (node cluster : ℕ) (bytes : List ℕ) (before : Held) (frames : List Frame) →
        Holds node cluster bytes before → AllByRecursion IsSpelled frames → AllMay before frames →
        Holds node cluster (bytes ++ flat_map frame_code frames) (after_all before frames) }
{}

/// The law that a store stands for what it holds.
pub fn held_bytes_stand()
    ensures { (node cluster : ℕ) (bytes : List ℕ) (held : Held) → Holds node cluster bytes held →
        StandsFor node cluster bytes (Log held.promised held.accepted held.entries) }
{}

/// The law that where a call to keep frames ended in a fault, and the store was stopped behind it, the store stands for
/// what is held after some of the frames, from the first on.
pub fn left_frames_stand()
    ensures { (node cluster : ℕ) (before : Held) (old left : Stored) (stopped : List ℕ) (frames : List Frame) →
        Holds node cluster old.synced before → AllByRecursion IsSpelled frames → AllMay before frames →
        AreLeft old left (flat_map frame_code frames) → JoinsFront left.synced left.pending stopped →
        StandsAfter node cluster stopped before frames }
{}
