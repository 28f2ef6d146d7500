ghost use Rattle.std.specs.Prelude.{◌≡◌};
ghost use Rattle.monk_history.specs.Text.{object_version, last_version};

use crate::limits::{ALL_EVENTS_VERSION, NEWEST_VERSION};
use monk_object::ObjectName;

/// Returns the first version of a text that names the object.
pub(crate) fn object_version(object: ObjectName) -> u8
    ensures { result ≡ object_version object }
{
    match object {
        ObjectName::Buffer | ObjectName::Book | ObjectName::Shop => 1,
        ObjectName::Flags => 3,
    }
}

/// Returns the last version of a text that names the object.
pub(crate) fn last_version(object: ObjectName) -> u8
    ensures { result ≡ last_version object }
{
    match object {
        ObjectName::Buffer | ObjectName::Book | ObjectName::Shop => ALL_EVENTS_VERSION,
        ObjectName::Flags => NEWEST_VERSION,
    }
}
