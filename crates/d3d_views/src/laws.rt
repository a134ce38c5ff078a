ghost use Rattle.std.specs.Prelude.{◌≡◌, ℕ, Some, false};
ghost use Rattle.dx_types.specs.declared.shape.Shape.{Shape};
ghost use Rattle.dx_types.specs.declared.shape.ViewShape.{ViewShape};
ghost use Rattle.d3d_model.specs.Check.{first_failed};
ghost use Rattle.d3d_model.specs.D3dState.{Objects, buffer_of};
ghost use Rattle.d3d_model.specs.Verdict.{view_checks};
ghost use Rattle.d3d_model.specs.View.{form_from, unit_of};
ghost use Rattle.d3d_views.specs.Creation.{creation_checks, is_wrong_form};
ghost use Rattle.d3d_views.specs.Limits.{IsUnit};

/// The checks of a span are the last ones of a creation by a call; and where the form and the components pass, the unit that
/// they give is one that a span may be asked for.
pub fn views_are_checked_in_order()
    ensures order { (o : Objects) (s : Shape) (v : ViewShape) (view kind form components : ℕ) → buffer_of o v.res ≡ Some s
        → first_failed (view_checks o v view kind form components)
        ≡ first_failed (creation_checks o s v view kind form components) }
    ensures unit { (stride form components : ℕ) → is_wrong_form form components ≡ false
        → IsUnit (form_from form) stride (unit_of (form_from form) stride components) }
{}
