// Walks over trees whose shape was tested: what stands there, and the kind that splits them.
#![tactic(auto)]

ghost use Rattle.std.specs.Prelude.{◌≡◌};
ghost use Rattle.paper.specs.Field.{is_map};

use paper::Kind;

// Whether a record's members are a key and a value.
pub fn is_map(k: Kind) -> bool
    ensures { result ≡ is_map k }
{
    k == Kind::Mapping
}
