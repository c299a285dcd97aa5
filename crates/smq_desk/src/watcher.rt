//! Watchers: they read editions without the desk's lock.
ghost use Rattle.std.specs.Prelude.{◌≡◌, ◌⊎◌, [], IfOk, IfErr, OnOk, OnErr};
ghost use Rattle.left_right.specs.Sides.{view};
ghost use Rattle.smq_kit.specs.declared.refusal.Refusal.TheVariants.{Memory, NoWatcher};
ghost use Rattle.smq_desk.specs.History.{StartsWith};

use crate::board::{BoardReader, Found, look};
use crate::{Edition, Note};
use smq_kit::Refusal;
use std::marker::Model;

/// Reads what is published of one desk, also after the desk is closed or ended. Its editions never go back: each begins with the
/// entries of those before it. A contract sees the entries of the newest that it read or learnt. A watcher that is dropped gives
/// its place on the board back.
#[derive(Drop)]
pub struct Watcher {
    /// None once the board was found taken down.
    reader: Option<BoardReader>,
    newest: Edition,
}

impl Model for Watcher {
    ghost use Rattle.std.specs.Prelude.{IfSome};
    ghost use Rattle.left_right.specs.Sides.{view as known_at};
    ghost use Rattle.smq_desk.specs.Editions.{EditionValue};
    ghost use Rattle.smq_desk.specs.History.{StartsWith};

    ghost Value = { EditionValue };

    ghost view = { λ w. w.newest };

    ghost invariant = { λ w. IfSome w.reader
        (λ reader. StartsWith (known_at reader.place).entries w.newest.entries) };
}

impl Watcher {
    /// A watcher that has read what is on the board of a new reader.
    pub(crate) fn new(reader: BoardReader) -> Result<Watcher, Refusal>
        requires { (view reader.place).entries ≡ [] }
        ensures { IfErr result (λ refusal. (refusal ≡ NoWatcher) ⊎ (refusal ≡ Memory)) }
    {
        let (reader, found) = look(reader);
        match found {
            Found::There(newest) => Ok(Watcher {
                reader: Some(reader),
                newest,
            }),
            Found::Gone => Err(Refusal::NoWatcher),
            Found::NoMemory => Err(Refusal::Memory),
        }
    }

    /// What is published now. Where the board is gone, the newest edition that was read or learnt.
    pub fn edition(&mut self) -> Result<Edition, Refusal>
        ensures ok { IfOk result (λ edition. edition ≡ self.new) }
        ensures later { StartsWith self.new.entries self.old.entries }
        ensures err { IfErr result (λ refusal. (refusal ≡ Memory) × (self.new ≡ self.old)) }
    {
        let Watcher { reader, newest } = self;
        if let Some(ours) = reader.take() {
            let (ours, found) = look(ours);
            match found {
                Found::There(edition) => {
                    *reader = Some(ours);
                    let Ok(copy) = edition.copy() else {
                        return Err(Refusal::Memory);
                    };
                    *newest = edition;
                    return Ok(copy);
                }
                Found::NoMemory => {
                    *reader = Some(ours);
                    return Err(Refusal::Memory);
                }
                Found::Gone => {}
            }
        }
        newest.copy().map_err(|_| Refusal::Memory)
    }

    /// From now on this watcher's editions begin with the entries of the note, which is of this watcher's desk. A note of another
    /// desk, whose entries don't begin what is published, is answered as lack of memory.
    pub fn learn(&mut self, note: &Note) -> Result<(), Refusal>
        ensures ok { OnOk result (StartsWith self.new.entries note.now.entries) }
        ensures later { StartsWith self.new.entries self.old.entries }
        ensures err { IfErr result (λ refusal. (refusal ≡ Memory) × (self.new ≡ self.old)) }
    {
        let told = note.edition();
        let Watcher { reader, newest } = self;
        if let Some(ours) = reader.take() {
            let (ours, found) = look(ours);
            match found {
                Found::There(current) => {
                    *reader = Some(ours);
                    if !current.history().starts_with(told.history()) {
                        return Err(Refusal::Memory);
                    }
                    *newest = current;
                    return Ok(());
                }
                Found::NoMemory => {
                    *reader = Some(ours);
                    return Err(Refusal::Memory);
                }
                Found::Gone => {}
            }
        }
        if newest.history().starts_with(told.history()) {
            return Ok(());
        }
        if !told.history().starts_with(newest.history()) {
            return Err(Refusal::Memory);
        }
        let Ok(copy) = told.copy() else {
            return Err(Refusal::Memory);
        };
        *newest = copy;
        Ok(())
    }
}
