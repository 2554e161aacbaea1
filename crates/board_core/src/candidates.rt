ghost use Rattle.board_core.specs.CandidateLaws.{EntriesKeepSoundness, HistoriesKeepSoundness};
ghost use Rattle.board_core.specs.CandidateLaws.{SoundOnesSettleLater};

/// Candidates that are sound for a fleet stay so whatever lawful entries come, and where they settle they give the best insertion of the
/// fleet as it is then. It does nothing: the laws are its contract.
pub fn candidates_stay_sound()
    ensures entries { EntriesKeepSoundness }
    ensures histories { HistoriesKeepSoundness }
    ensures settled { SoundOnesSettleLater }
{}
