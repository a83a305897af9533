//! Keys in a list, none twice.

ghost use Rattle.std.specs.Prelude.{◌≡◌, OnOk, OnErr};
ghost use Rattle.test_forms.specs.Keys.{has_key, learned};

use dds_base::{KeyNo, NoMemory};

// Whether the key is among them.
pub(crate) fn is_among(keys: &[KeyNo], key: KeyNo) -> bool
    ensures { result ≡ has_key keys.now key }
{
    keys.iter().any(|k| *k == key)
}

// Adds a key that is not there yet.
pub(crate) fn learn(keys: &mut Vec<KeyNo>, key: KeyNo) -> Result<(), NoMemory>
    ensures ok { OnOk result (keys.new.items ≡ learned keys.old.items key) }
    ensures err { OnErr result (keys.new.items ≡ keys.old.items) }
{
    if !is_among(keys, key) {
        keys.push(key)?;
    }
    Ok(())
}
