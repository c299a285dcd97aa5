//! Scripts of links, days and hours as files of a folder.
ghost use Rattle.std.specs.Prelude.{◌≡◌, ◌++◌, None, OnOk, string_bytes};
ghost use Rattle.smq_commands.specs.Scripts.{script_name};

use smq_count::{push_day, push_hour};
use smq_parts::{By, Folder, Part};
use std::alloc::{AllocError, Global};
use std::collections::BTreeSet;
use std::fs::OpenOptions;
use std::io::{ErrorKind, Write};
use std::rt::Files;
use std::{fs, io};

/// What stands behind the name of a script until it is whole.
const UNFINISHED: &str = ".part";

/// Scripts of links and periods as files of a folder. No file stays open, since scripts may be many.
#[derive(Drop)]
pub(crate) struct Scripts<'a, R> {
    rt: &'a R,
    alloc: Global,
    folder: &'a str,
    by: By,
    begun: BTreeSet<Part>,
    /// The path that couldn't be made, written or renamed: from then on nothing is written.
    failed: Option<String>,
}

impl<'a, R: Files + AllocGlobal> Scripts<'a, R> {
    /// None is begun yet.
    pub(crate) fn new(rt: &'a R, folder: &'a str, by: By) -> Scripts<'a, R> {
        Scripts {
            rt,
            alloc: rt.alloc(),
            folder,
            by,
            begun: BTreeSet::new(rt.alloc()),
            failed: None,
        }
    }

    /// The path that couldn't be made, written or renamed.
    pub(crate) fn failed(&self) -> Option<&str> {
        match &self.failed {
            Some(path) => Some(path.as_str()),
            None => None,
        }
    }

    /// Makes the folder, where it isn't there.
    pub(crate) fn make_folder(&mut self) -> io::Result<()> {
        let path = String::from_str(self.alloc, self.folder)?;
        let made = fs::create_dir_all(self.rt, self.folder);
        self.done(path, made)
    }

    /// Gives all scripts their names: they are whole.
    pub(crate) fn finish(&mut self) -> io::Result<()> {
        for _ in 0..u64::MAX {
            let Some(part) = self.begun.pop_first() else {
                break;
            };
            let path = path_of(self.alloc, self.folder, self.by, part)?;
            let unfinished = unfinished_path(self.alloc, path.as_str())?;
            let renamed = fs::rename(self.rt, unfinished.as_str(), path.as_str());
            self.done(path, renamed)?;
        }
        Ok(())
    }

    /// Notes the path where what was done with it failed.
    fn done(&mut self, path: String, outcome: io::Result<()>) -> io::Result<()> {
        if outcome.is_err() {
            self.failed = Some(path);
        }
        outcome
    }

    /// Writes a text behind the end of a script.
    fn write(&mut self, part: Part, path: &str, text: &[u8]) -> io::Result<()> {
        let mut file = self.open(part, path)?;
        file.write_all(text)
    }

    /// The unfinished file of a script, at its end.
    fn open(&mut self, part: Part, path: &str) -> io::Result<R::File> {
        let unfinished = unfinished_path(self.alloc, path)?;
        if self.begun.contains(&part) {
            return OpenOptions::new()
                .append(true)
                .open(self.rt, unfinished.as_str());
        }
        let file = self.begin(path, unfinished.as_str())?;
        self.begun.insert(part)?;
        Ok(file)
    }

    /// Begins the unfinished file of a script, where neither is there.
    fn begin(&self, path: &str, unfinished: &str) -> io::Result<R::File> {
        if let Some((folder, _)) = path.rsplit_once("/") {
            fs::create_dir_all(self.rt, folder)?;
        }
        let file = OpenOptions::new()
            .write(true)
            .create_new(true)
            .open(self.rt, unfinished)?;
        // (looked for behind that, so that no other run can have finished it meanwhile)
        if fs::exists(self.rt, path)? {
            fs::remove_file(self.rt, unfinished)?;
            return Err(io::Error::from(ErrorKind::AlreadyExists));
        }
        Ok(file)
    }
}

impl<R: Files + AllocGlobal> Folder for Scripts<'_, R> {
    // (no clause can say what a file holds)
    ghost contents = { λ s. λ part. None };

    fn append(&mut self, part: Part, text: &[u8]) -> io::Result<()> {
        if self.failed.is_some() {
            return Err(io::Error::from(ErrorKind::Other));
        }
        let path = path_of(self.alloc, self.folder, self.by, part)?;
        let written = self.write(part, path.as_str(), text);
        self.done(path, written)
    }
}

/// The path of a script.
fn path_of(alloc: Global, folder: &str, by: By, part: Part) -> Result<String, AllocError> {
    let mut path = format!(in alloc; "{folder}/")?;
    push_name(&mut path, by, part)?;
    Ok(path)
}

/// Its path until it is whole.
fn unfinished_path(alloc: Global, path: &str) -> Result<String, AllocError> {
    format!(in alloc; "{path}{UNFINISHED}")
}

/// Puts the name of a script.
fn push_name(path: &mut String, by: By, part: Part) -> Result<(), AllocError>
    ensures { OnOk result (string_bytes path.new ≡ string_bytes path.old ++ script_name by part) }
{
    let link = part.link;
    match by {
        By::Link => write!(path, "link-{link}.csv"),
        By::Day => {
            push_day(path, part.period)?;
            path.push_str(".csv")
        }
        By::Hour => {
            push_hour(path, part.period)?;
            path.push_str(".csv")
        }
        By::LinkAndDay => {
            push_day(path, part.period)?;
            write!(path, "/link-{link}.csv")
        }
        By::LinkAndHour => {
            push_hour(path, part.period)?;
            write!(path, "/link-{link}.csv")
        }
    }
}
