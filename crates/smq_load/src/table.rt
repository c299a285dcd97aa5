//! Tables of a TOML document, and their values.
ghost use Rattle.std.specs.Prelude.{◌≡◌, option_map};
ghost use Rattle.toml.specs.Data.{get_member};
ghost use Rattle.toml.specs.View.{table_view, view};
ghost use Rattle.smq_load.specs.Settings.{all_known, names_key, number_to};

use crate::field::is_word;
use toml::{Table, Value};

/// The value at a key of a table.
pub fn value_at<'a>(table: &'a Table, key: &str) -> Option<&'a Value>
    ensures { option_map (λ value. view value.now) result
        ≡ get_member key.now (table_view table.now) }
{
    table.get(key)
}

/// The integer that a value is, where it is from 0 to the greatest.
pub fn read_number(value: &Value, greatest: u64) -> Option<u64>
    ensures { result ≡ number_to greatest (view value.now) }
{
    let number = value.as_integer()?;
    if number < 0 || number as u64 > greatest {
        return None;
    }
    Some(number as u64)
}

/// Which keys a table may have.
#[derive(Clone, Copy, Debug, PartialEq, Eq)]
pub enum Keys {
    /// Those of a document.
    Document,
    /// Those of a link table.
    Link,
}

impl Keys {
    /// Whether a key is one of them.
    fn have(self, key: &[u8]) -> bool
        ensures { result ≡ names_key self key.now }
    {
        match self {
            Keys::Document => is_word(key, "clock") || is_word(key, "link"),
            Keys::Link => {
                is_word(key, "id")
                    || is_word(key, "response")
                    || is_word(key, "receipt")
                    || is_word(key, "window")
            }
        }
    }
}

/// Whether each key of a table is one of these.
pub fn has_known_keys(table: &Table, keys: Keys) -> bool
    ensures { result ≡ all_known (names_key keys) (table_view table.now) }
{
    for (key, _) in table.iter() {
        if !keys.have(key.as_bytes()) {
            return false;
        }
    }
    true
}
