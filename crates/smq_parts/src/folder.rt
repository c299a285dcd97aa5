//! A folder of scripts.
ghost use Rattle.std.specs.Prelude.{OnOk};

use crate::by::Part;
use std::io;

/// What has a text for each script.
pub trait Folder {
    ghost use Rattle.std.specs.Prelude.{ℕ, List, Option, OnOk};
    ghost use Rattle.smq_parts.specs.Parts.{Puts};
    ghost use Rattle.smq_parts.specs.declared.by.Part.{Part as Script};

    /// The text of a script, where that is known.
    ghost contents: { Self → Script → Option (List ℕ) };

    /// Puts a text after that of a script, and leaves the others.
    fn append(&mut self, part: Part, text: &[u8]) -> io::Result<()>
        ensures { OnOk result (Puts part text.now (contents self.old) (contents self.new)) };
}
