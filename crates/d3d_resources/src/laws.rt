ghost use Rattle.std.specs.Prelude.{◌≡◌, ℕ, List, false};
ghost use Rattle.d3d_model.specs.Check.{first_failed};
ghost use Rattle.d3d_model.specs.D3dState.{Objects};
ghost use Rattle.d3d_model.specs.Verdict.{buffer_checks, is_wrong_data, is_wrong_usage};
ghost use Rattle.d3d_resources.specs.Creation.{table_checks, creation_checks, shape_of};

/// The table's checks are those of a creation by a call, but for the two that need the usage's number or the data: where
/// both pass, the table decides alone; else they stand behind the checks of the id.
pub fn creations_are_checked_in_order()
    ensures table { (o : Objects) (id size usage bind misc stride : ℕ) (bytes : List ℕ)
        → is_wrong_usage usage bytes ≡ false → is_wrong_data size bytes ≡ false
        → first_failed (buffer_checks o id size usage bind misc stride bytes)
        ≡ first_failed (table_checks o.buffers id (shape_of size usage bind misc stride)) }
    ensures whole { (o : Objects) (id size usage bind misc stride : ℕ) (bytes : List ℕ)
        → first_failed (buffer_checks o id size usage bind misc stride bytes)
        ≡ first_failed (creation_checks o.buffers id size usage bind misc stride bytes) }
{}
