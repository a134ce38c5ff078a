// The places of groups in a dispatch, and of threads in a group.

ghost use Rattle.std.specs.Prelude.{◌≡◌, IfSome};
ghost use Rattle.shader_model.specs.Dispatch.{places};
ghost use Rattle.shader_model.specs.PlacesLeft.{IsBelow, places_behind, places_from, all_left, begins};

use std::marker::Model;

/// The first place below sizes, None where there is none.
#[tactic(auto, using(crate::proofs::PlacesInOrder::first_place, crate::proofs::PlacesInOrder::no_columns, crate::proofs::PlacesInOrder::no_rows, crate::proofs::PlacesInOrder::no_planes))]
fn first_place(sizes: [u32; 3]) -> Option<[u32; 3]>
    ensures place { places sizes ≡ places_from sizes result }
    ensures below { IfSome result (λ place. IsBelow place sizes) }
{
    let [width, height, depth] = sizes;
    if width == 0 || height == 0 || depth == 0 {
        return None;
    }
    Some([0, 0, 0])
}

/// The place behind one, None behind the last.
fn place_behind(place: [u32; 3], sizes: [u32; 3]) -> Option<[u32; 3]>
    requires { IsBelow place sizes }
    ensures place { places_behind sizes place ≡ places_from sizes result }
    ensures below { IfSome result (λ next. IsBelow next sizes) }
{
    let [x, y, z] = place;
    let [width, height, depth] = sizes;
    if x + 1 < width {
        return Some([x + 1, y, z]);
    }
    if y + 1 < height {
        return Some([0, y + 1, z]);
    }
    if z + 1 < depth {
        return Some([0, 0, z + 1]);
    }
    None
}

/// The places below sizes along x, y and z that are still to come: by z, then y, then x, with x changing fastest.
#[derive(Drop)]
pub struct Places {
    sizes: [u32; 3],
    next: Option<[u32; 3]>,
}

impl Model for Places {
    ghost use Rattle.std.specs.Prelude.{IfSome};
    ghost use Rattle.shader_model.specs.PlacesLeft.{PlacesLeft, IsBelow, places_from};

    ghost Value = { PlacesLeft };

    ghost view = { λ p. record { sizes = p.sizes; left = places_from p.sizes p.next } };

    ghost invariant = { λ p. IfSome p.next (λ place. IsBelow place p.sizes) };
}

impl Places {
    /// All places below sizes.
    pub fn below(sizes: [u32; 3]) -> Places
        ensures { result ≡ all_left sizes }
    {
        Places {
            sizes,
            next: first_place(sizes),
        }
    }

    /// Takes the next place, None where none is left.
    pub fn next(&mut self) -> Option<[u32; 3]>
        ensures sizes { self.new.sizes ≡ self.old.sizes }
        ensures taken { self.old.left ≡ begins result self.new.left }
        ensures below { IfSome result (λ place. IsBelow place self.old.sizes) }
    {
        let place = self.next?;
        self.next = place_behind(place, self.sizes);
        Some(place)
    }
}
