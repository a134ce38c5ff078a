ghost use Rattle.std.specs.Prelude.{◌≡◌, ℕ, ◌<◌, Bool, true, false, not, List, ◌∷◌, ◌++◌, Option, Some, None};
ghost use Rattle.std.specs.List.{list_any};
ghost use Rattle.dx_types.specs.declared.range.Range.{Range};
ghost use Rattle.call_log.specs.Call.{Issued};
ghost use Rattle.core_model.specs.Script.{Mark_query, Count, Constant, Turn, Asked, Item};
ghost use Rattle.core_model.specs.Lawful.{is_begun, last_end, is_item_of};
ghost use Rattle.core_model.specs.Queries.{marks_from};
ghost use Rattle.log_script.specs.LogScript.{script_of};

/// Queries that count invocations are begun and ended in turn. What a `GetData` waits for is known: of such a query
/// its last End, after which it is not begun anew, and of a query of another sort an earlier call that has an item.
pub fn scripts_use_queries_in_turn()
    ensures marks { (log : List Issued) (front : List Turn) (call item : ℕ) (ends : Bool) (query : ℕ)
        (begins : Bool) (bound : List Range) (back : List Turn)
        → (script_of log).turns ≡ front ++ Item call item ends (Mark_query query begins) bound ∷ back
        → is_begun query (marks_from 0 front) false ≡ not begins }
    ensures count_uses { (log : List Issued) (front : List Turn) (call query : ℕ) (used : Option ℕ)
        (may_pend : Bool) (back : List Turn)
        → (script_of log).turns ≡ front ++ Asked call (Count query) used may_pend ∷ back
        → used ≡ last_end query front None }
    ensures count_asks { (log : List Issued) (front : List Turn) (call query : ℕ) (used : Option ℕ)
        (may_pend : Bool) (back : List Turn)
        → (script_of log).turns ≡ front ++ Asked call (Count query) used may_pend ∷ back
        → ((n : ℕ) × (last_end query front None ≡ Some n)) × (is_begun query (marks_from 0 front) false ≡ false) }
    ensures constants { (log : List Issued) (front : List Turn) (call value : ℕ) (used : Option ℕ) (may_pend : Bool)
        (back : List Turn)
        → (script_of log).turns ≡ front ++ Asked call (Constant value) used may_pend ∷ back → (n : ℕ)
        × (used ≡ Some n) × (n < call) × (list_any (is_item_of n) front ≡ true) }
{}
