ghost use Rattle.std.specs.Prelude.{◌≡◌, ℕ, suc, ◌+◌, ◌≤◌, false, List, [], ◌∷◌, ◌++◌, length};
ghost use Rattle.std.specs.List.{AllByRecursion};
ghost use Rattle.vk_types.specs.declared.command.Command.{Command};
ghost use Rattle.vk_types.specs.Effects.{Meaning, Device};
ghost use Rattle.base_lemmas.specs.Lists.{Pairwise, numbers_from};
ghost use Rattle.core_model.specs.Script.{Turn, Script, at_start, in_order};
ghost use Rattle.core_model.specs.Chunking.{chunks};
ghost use Rattle.core_model.specs.CoreState.{Message, Core, segments, marks};
ghost use Rattle.core_model.specs.Readings.{Reading};
ghost use Rattle.core_model.specs.OtherParts.{all_marks, sum_from};
ghost use Rattle.core_model.specs.Succession.{values_after};
ghost use Rattle.core_model.specs.Lawful.{IsLawful};
ghost use Rattle.core_model.specs.Invariant.{commands_of};
ghost use Rattle.core_model.specs.Kept.{Kept};
ghost use Rattle.core_model.specs.Queries.{count_in_order, commands_in, command_numbers, marks_from, is_end};
ghost use Rattle.core_model.specs.Queries.{newest_of, AreInTurn, QueriesRight};

/// Laws of queries in order. The invocations so far are the sum over the commands that the turns so far make, which
/// are numbered 1, 2, 3, .. over the whole script; and the count of a query is what its last End left: the sum over
/// the commands from the one that its Begin names to the one before the End's.
pub fn counts_are_sums()
    ensures totals { (meaning : Meaning) (script : Script) (front back : List Turn) → script.turns ≡ front ++ back
        → (in_order meaning script front at_start).total ≡ sum_from (count_in_order meaning script) 1
        (commands_in front) }
    ensures counts { (meaning : Meaning) (script : Script) (front back : List Turn) → script.turns ≡ front ++ back
        → (query : ℕ)
        → (in_order meaning script front at_start).count query
        ≡ newest_of is_end (count_in_order meaning script) [] (marks_from 0 front) query 0 }
{}

/// Laws of the numbers and counts of commands, in a state of a run of a lawful script. The commands of the listing,
/// those of the open chunk too, are numbered 1, 2, 3, .. And whichever ready commands were run, the device counted
/// for each of them the invocations that the command runs in order.
pub fn commands_count_in_order()
    ensures numbers { (meaning : Meaning) (reading : Reading) (script : Script) (core : Core)
        → Kept meaning reading script core → QueriesRight meaning script core
        → command_numbers (commands_of (segments core)) ≡ numbers_from 1 core.commands }
    ensures counts { (meaning : Meaning) (reading : Reading) (script : Script) (core : Core)
        → Kept meaning reading script core → QueriesRight meaning script core
        → AllByRecursion (λ x. (d : Command) → x.act ≡ Device d
        → core.counts d.number ≡ count_in_order meaning script d.number) core.ran }
{}

/// Laws of the marks and values of queries, in a state of a run of a lawful script. The marks of all chunks are those
/// that the turns taken so far make. Neither their calls nor the numbers of the commands that they name fall, and
/// those of one query are a Begin and an End in turn, a Begin first. Each completion, and each post that was not
/// taken, has one value for each End whose call its chunk finishes: the query's count in order behind that End.
pub fn query_messages_are_right()
    ensures marks { (meaning : Meaning) (reading : Reading) (script : Script) (core : Core)
        → Kept meaning reading script core → QueriesRight meaning script core
        → all_marks (segments core) ≡ marks_from 0 core.past }
    ensures in_turn { (meaning : Meaning) (reading : Reading) (script : Script) (core : Core)
        → Kept meaning reading script core → QueriesRight meaning script core → IsLawful meaning script
        → (query : ℕ) → AreInTurn query false (all_marks (segments core)) }
    ensures calls { (meaning : Meaning) (reading : Reading) (script : Script) (core : Core)
        → Kept meaning reading script core → QueriesRight meaning script core → IsLawful meaning script
        → Pairwise (λ m k. m.call ≤ k.call) (all_marks (segments core)) }
    ensures numbers { (meaning : Meaning) (reading : Reading) (script : Script) (core : Core)
        → Kept meaning reading script core → QueriesRight meaning script core
        → Pairwise (λ m k. m.before ≤ k.before) (all_marks (segments core)) }
    ensures values { (meaning : Meaning) (reading : Reading) (script : Script) (core : Core)
        → Kept meaning reading script core → QueriesRight meaning script core
        → (front : List Message) (m : Message) (back : List Message)
        → core.posts ++ core.completions ≡ front ++ m ∷ back
        → m.values ≡ values_after meaning script (suc (length core.taken + length front)) }
{}
