ghost use Rattle.std.specs.Prelude.{[], ◌++◌};
ghost use Rattle.frame_code.specs.Codes.{frame_code};
ghost use Rattle.frame_code.specs.declared.frames.Frame.TheVariants.{Header, Promise};
ghost use Rattle.store_log.specs.declared.standings.Standing.TheVariants.{Log, Bad, Foreign};
ghost use Rattle.store_log.specs.Held.{StandsFor};

/// Worked stores of node 2 in cluster 7: one of no byte, one of a header, one with the promise of generation 1 behind
/// it, one with that promise twice, and the store of node 3.
pub fn stores_by_hand()
    ensures empty { StandsFor 2 7 [] (Log 0 0 []) }
    ensures begun { StandsFor 2 7 (frame_code (Header 1 2 7)) (Log 0 0 []) }
    ensures promised { StandsFor 2 7 (frame_code (Header 1 2 7) ++ frame_code (Promise 1)) (Log 1 0 []) }
    ensures twice { StandsFor 2 7
        (frame_code (Header 1 2 7) ++ (frame_code (Promise 1) ++ frame_code (Promise 1))) (Bad 44) }
    ensures foreign { StandsFor 2 7 (frame_code (Header 1 3 7)) Foreign }
{}
