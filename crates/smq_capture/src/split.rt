//! Rows that are split into scripts of links and days.
ghost use Rattle.std.specs.Prelude.{◌≡◌, None, OnOk};
ghost use Rattle.smq_capture.specs.Written.{piece_text};
ghost use Rattle.smq_parts.specs.Parts.{Puts, part_by};

use crate::fault::Fault;
use crate::notice::Notice;
use crate::row::put_row;
use crate::sink::{Loss, Piece, SessionLine, Sink, Texts};
use smq_parts::{By, Folder};
use std::io::Write;

/// Writes pieces as rows of the scripts of their links and days, and the rest as `Texts` does. A tick has no row, since it is of all links.
#[derive(Drop)]
pub struct SplitTexts<F, W, N, I, L> {
    by: By,
    folder: F,
    row: Vec<u8>,
    texts: Texts<W, N, I, L>,
}

impl<F: Folder, W: Write, N: Write, I: Write, L: Write> SplitTexts<F, W, N, I, L> {
    /// Splits rows into the scripts of a folder; to the texts none is put.
    pub fn new(by: By, folder: F, row: Vec<u8>, texts: Texts<W, N, I, L>) -> Self {
        SplitTexts {
            by,
            folder,
            row,
            texts,
        }
    }

    /// The folder of scripts.
    pub fn folder(&mut self) -> &mut F {
        &mut self.folder
    }
}

impl<F: Folder, W: Write, N: Write, I: Write, L: Write> Sink for SplitTexts<F, W, N, I, L> {
    // (the rows are in many texts: see `script`)
    ghost contents = { λ t. None };

    fn put(&mut self, piece: &Piece<'_>) -> Result<usize, Fault>
        ensures script { OnOk result (Puts (part_by self.old.by piece.now.link piece.now.moment) (piece_text piece.now)
            (F.contents self.old.folder) (F.contents self.new.folder)) }
        ensures by { self.new.by ≡ self.old.by }
    {
        self.row.clear();
        put_row(
            &mut self.row,
            piece.link,
            piece.session,
            piece.sender,
            piece.moment,
            piece.octets,
        )?;
        let part = self.by.part(piece.link, piece.moment);
        match self.folder.append(part, self.row.as_slice()) {
            Ok(()) => Ok(self.row.len()),
            Err(error) => Err(Fault::Write(error)),
        }
    }

    fn tick(&mut self, _clock: Option<u64>) -> Result<(), Fault> {
        Ok(())
    }

    fn tell(&mut self, notice: &Notice) -> Result<(), Fault> {
        self.texts.tell(notice)
    }

    fn note_session(&mut self, line: &SessionLine) -> Result<(), Fault> {
        self.texts.note_session(line)
    }

    fn note_loss(&mut self, loss: &Loss) -> Result<(), Fault> {
        self.texts.note_loss(loss)
    }

    /// What waits is written once it is much, since nobody reads a script before its end.
    fn flush(&mut self) -> Result<(), Fault> {
        Ok(())
    }
}
