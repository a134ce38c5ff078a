ghost use Rattle.std.specs.Prelude.{◌≡◌, ℕ, ◌<◌, ◌^◌, ◌⊎◌, List, length};
ghost use Rattle.call_log.specs.declared.fault.LogFault.{LogFault};
ghost use Rattle.call_log.specs.Body.{call_of};
ghost use Rattle.call_log.specs.Call.{Call};
ghost use Rattle.call_log.specs.Grammar.{Frame, IsFrame, IsLog, IsFault, AreBytes};
ghost use Rattle.call_log.specs.Put.{frame_of, kind_of_call, body_of_call, body_length, words_of_call, AreWords, IsPuttable};

/// Bytes are a log of one list of records, or have one first fault, and never both.
pub fn one_reading()
    ensures some { (bytes : List ℕ) → AreBytes bytes → ((fs : List Frame) × IsLog bytes fs) ⊎ ((fault : LogFault) × IsFault bytes fault) }
    ensures records { (bytes : List ℕ) (fs gs : List Frame) → IsLog bytes fs → IsLog bytes gs → fs ≡ gs }
    ensures no_fault { (bytes : List ℕ) (fs : List Frame) (fault : LogFault) → IsLog bytes fs → IsFault bytes fault → ⊥ }
    ensures one_fault { (bytes : List ℕ) (d e : LogFault) → IsFault bytes d → IsFault bytes e → d ≡ e }
{}

/// The record of a call is one that a log may have, and it spells that call; and each record of bytes is the one of
/// the call that it spells.
pub fn puts_read_back()
    ensures length { (c : Call) → length (body_of_call c) ≡ body_length c }
    ensures record { (context : ℕ) (c : Call) → context < 2 ^ 16 → IsPuttable c → AreWords (words_of_call c) → IsFrame (frame_of context c) }
    ensures call { (c : Call) → IsPuttable c → AreWords (words_of_call c) → call_of (kind_of_call c) (body_of_call c) ≡ c }
    ensures only { (f : Frame) → IsFrame f → AreBytes f.body → frame_of f.context (call_of f.kind f.body) ≡ f }
{}
