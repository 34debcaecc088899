//! The keys under which the program keeps what it knows of objects.

ghost use Rattle.std.specs.Prelude.{◌≡◌};
ghost use Rattle.run_check.specs.Keying.{object_key};

use pool_law::Object;

/// The key of an object: which kind it is, and its numbers.
pub(crate) fn object_key(object: &Object) -> (u32, u32, u32)
    ensures { result ≡ object_key object.now }
{
    match *object {
        Object::Arena(number) => (0, number, 0),
        Object::Cache { lane, class } => (1, lane, class),
        Object::Bin(lane) => (2, lane, 0),
        Object::Mail { from, to } => (3, from, to),
        Object::Root(place) => (4, place, 0),
    }
}
