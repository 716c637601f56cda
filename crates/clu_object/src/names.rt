//! The names in an object.

ghost use Rattle.std.specs.Prelude.{◌≡◌};
ghost use Rattle.clu_object.specs.ObjectReading.{is_routine_name, is_arm_name};

use clu_format::is_name;

/// Whether a routine has this name: one of the source, or `own` for the setting up of a cluster's own variables.
pub fn is_routine_name(name: &[u8]) -> bool
    ensures { result ≡ is_routine_name name.now }
{
    is_name(name) || name == b"own".as_slice()
}

/// Whether an arm has this name: that of an exception, or none for all others.
pub fn is_arm_name(name: &[u8]) -> bool
    ensures { result ≡ is_arm_name name.now }
{
    name.is_empty() || is_name(name)
}
