// Roots of paths.
ghost use Rattle.std.specs.Prelude.{◌≡◌};
ghost use Rattle.field_ops.specs.Roots.{same_root, any_root};

use field_paths::{FieldPath, Root};

/// Whether one of the fields begins in this root.
pub fn begins_any(root: Root, fields: &[FieldPath]) -> bool
    ensures { result ≡ any_root (same_root root) fields.now }
{
    for field in fields {
        if root == field.root() {
            return true;
        }
    }
    false
}
