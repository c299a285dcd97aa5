//! Rows that wait to be written, so that each script is written seldom.
ghost use Rattle.std.specs.Prelude.{◌≡◌, [], IfSome, IfNone, OnOk};
ghost use Rattle.smq_parts.specs.within.Waiting.{IsAdded, IsAt, PutsAll, Stay, held, waits_for};

use crate::by::Part;
use crate::folder::Folder;
use std::alloc::{AllocError, Global};
use std::io;

/// So many octets of rows wait at most, but for the last row of them.
const MOST_OCTETS: usize = 1_048_576;

/// Rows of so many scripts wait at most.
const MOST_PARTS: usize = 256;

/// Text that waits for a script.
#[derive(Drop)]
pub(crate) struct Waiting {
    pub part: Part,
    pub text: Vec<u8>,
}

/// A folder to which texts are written once many wait. They are there as soon as they are put.
#[derive(Drop)]
pub struct Gathered<F> {
    alloc: Global,
    folder: F,
    waiting: Vec<Waiting>,
    octets: usize,
}

impl<F: Folder> Gathered<F> {
    /// Nothing waits for the folder.
    pub fn new(alloc: Global, folder: F) -> Gathered<F>
        ensures { Stay (F.contents folder) (held (F.contents result.folder) result.waiting.items) }
    {
        Gathered {
            alloc,
            folder,
            waiting: Vec::new(alloc),
            octets: 0,
        }
    }

    /// The folder, without what waits.
    pub fn folder(&mut self) -> &mut F {
        &mut self.folder
    }

    /// Writes what waits. After an error no more is to be put.
    pub fn write_out(&mut self) -> io::Result<()>
        ensures stay { OnOk result (Stay (held (F.contents self.old.folder) self.old.waiting.items)
            (F.contents self.new.folder)) }
        ensures none { OnOk result (self.new.waiting.items ≡ []) }
    {
        write_all(&mut self.folder, self.waiting.as_slice())?;
        self.waiting.clear();
        self.octets = 0;
        Ok(())
    }

    /// Writes what waits where that is much.
    fn make_room(&mut self) -> io::Result<()>
        ensures { OnOk result (Stay (held (F.contents self.old.folder) self.old.waiting.items)
            (held (F.contents self.new.folder) self.new.waiting.items)) }
    {
        if self.octets >= MOST_OCTETS || self.waiting.len() >= MOST_PARTS {
            return self.write_out();
        }
        Ok(())
    }
}

impl<F: Folder> Folder for Gathered<F> {
    ghost contents = { λ g. held (F.contents g.folder) g.waiting.items };

    fn append(&mut self, part: Part, text: &[u8]) -> io::Result<()> {
        self.make_room()?;
        add(self.alloc, &mut self.waiting, part, text)?;
        self.octets = self.octets.saturating_add(text.len());
        Ok(())
    }
}

/// Writes texts to a folder, one after the other.
fn write_all<F: Folder>(folder: &mut F, waiting: &[Waiting]) -> io::Result<()>
    ensures { OnOk result (PutsAll waiting.now (F.contents folder.old) (F.contents folder.new)) }
{
    for it in waiting {
        folder.append(it.part, it.text.as_slice())?;
    }
    Ok(())
}

/// Puts a text after what waits for a script.
fn add(alloc: Global, waiting: &mut Vec<Waiting>, part: Part, text: &[u8]) -> Result<(), AllocError>
    ensures { OnOk result (IsAdded part text.now waiting.old.items waiting.new.items) }
{
    match place_of(waiting.as_slice(), part) {
        Some(place) => waiting[place].text.extend_from_slice(text)?,
        None => {
            let text = Vec::from_slice(alloc, text)?;
            waiting.push(Waiting { part, text })?
        }
    }
    Ok(())
}

/// The place of the last text that waits for a script.
fn place_of(waiting: &[Waiting], part: Part) -> Option<usize>
    ensures found { IfSome result (IsAt part waiting.now) }
    ensures none { IfNone result (waits_for part waiting.now ≡ []) }
{
    let (last, before) = waiting.split_last()?;
    if part.is(last.part) {
        return Some(before.len());
    }
    place_of(before, part)
}
