ghost use Rattle.std.specs.Prelude.{ℕ, List};
ghost use Rattle.call_log.specs.Call.{Issued};
ghost use Rattle.call_log.specs.Grammar.{Frame, IsLog, AreBytes, calls_of};
ghost use Rattle.core_model.specs.CoreState.{Core};
ghost use Rattle.core_model.specs.HostBytes.{HasBytes, IsOfBytes};
ghost use Rattle.core_model.specs.Lawful.{IsLawful};
ghost use Rattle.core_model.specs.Reached.{IsReached};
ghost use Rattle.core_model.specs.Readings.{Reading};
ghost use Rattle.log_script.specs.LogBytes.{LogHasBytes};
ghost use Rattle.log_script.specs.LogScript.{meaning_of, script_of};

/// What the checks of Direct3D's calls make sure of, of the script of every log: all that the core model asks of a
/// script.
pub fn scripts_are_lawful()
    ensures { (log : List Issued) → IsLawful (meaning_of log) (script_of log) }
{}

/// Where the data of a log's calls are bytes, as a log's format has them, so is what the host writes of its script's
/// items, and so is the device's memory, in every state that steps reach, in each reading and by any choices. The
/// calls of each log that is read from bytes have such data.
pub fn scripts_have_bytes()
    ensures read { (bytes : List ℕ) (frames : List Frame) → IsLog bytes frames → AreBytes bytes
        → LogHasBytes (calls_of frames) }
    ensures items { (log : List Issued) → LogHasBytes log → HasBytes (script_of log) }
    ensures memory { (log : List Issued) → LogHasBytes log → (reading : Reading) (core : Core)
        → IsReached (meaning_of log) reading (script_of log) core
        → IsOfBytes core.memory }
{}
