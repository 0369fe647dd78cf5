// The names of entries.

ghost use Rattle.std.specs.Prelude.{◌≡◌, ◌⊎◌, ◌∷◌, [], ◌↔◌, IsTrue};
ghost use Rattle.volume_terms.specs.Names.{IsName};

use crate::numbers::NAME_LIMIT;

/// Whether the bytes can be the name of an entry.
pub fn is_name(name: &[u8]) -> bool
    ensures { IsTrue result ↔ IsName name.now }
{
    if name.is_empty() || name.len() > NAME_LIMIT {
        return false;
    }
    if name.contains(&0) || name.contains(&b'/') {
        return false;
    }
    !is_dots(name)
}

/// Whether the name is that of a directory itself or of the one above.
fn is_dots(name: &[u8]) -> bool
    ensures { IsTrue result ↔ ((name.now ≡ 46 ∷ []) ⊎ (name.now ≡ 46 ∷ 46 ∷ [])) }
{
    name == b".".as_slice() || name == b"..".as_slice()
}
