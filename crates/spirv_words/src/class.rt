// The storage classes of pointers and variables.

ghost use Rattle.std.specs.Prelude.{◌≡◌};
ghost use Rattle.spirv_model.specs.StorageClass.{is_class};

use spirv_model::storage_classes::{FUNCTION, INPUT, PUSH_CONSTANT, STORAGE_BUFFER};

/// Whether the profile has a class.
pub fn is_class(class: u32) -> bool
    ensures { result ≡ is_class class }
{
    matches!(class, INPUT | FUNCTION | PUSH_CONSTANT | STORAGE_BUFFER)
}
