//! The files of the system as a shelf. A file that can be read once alone, as a pipe, is kept as it is read: what is
//! told of it afterwards is told of the bytes that were judged, and it is not opened anew, which might wait for ever.
ghost use Rattle.std.specs.Prelude.{◌≡◌, ◌++◌, ◌≤◌, [], None, Some, length};
ghost use Rattle.std.specs.Option.{IfSome};
ghost use Rattle.std.specs.String.{string_bytes};
ghost use Rattle.idp.specs.declared.files.KeptFile.{KeptFile};

#[cfg(test)]
mod tests;

use crate::adapters::CountedReader;
use kb_io::{Failed, Shelf};
use std::alloc::Global;
use std::fs::{self, Files};
use std::io::{self, Cursor, Read};

/// So many bytes are kept of a file: one more than a knowledge base may have, by which it is seen to be too long.
const MOST_KEPT: usize = 4_194_305;

/// What was read of a file.
#[derive(Drop)]
pub struct KeptFile {
    name: String,
    bytes: Vec<u8>,
}

/// A file that is read.
#[derive(Drop)]
pub enum FileBytes<F> {
    /// One that can be opened anew.
    Opened(F),
    /// One that can be read once alone, with what was read of it; without that where it has too many bytes, or there
    /// was no memory to keep them.
    Copied(F, Option<KeptFile>),
    /// What was kept of the file of this name.
    Again(String, Cursor<Vec<u8>>),
}

/// What was kept with what is read now; nothing where that is too much, or there is no memory.
fn kept_with(kept: Option<KeptFile>, piece: &[u8]) -> Option<KeptFile>
    ensures grown { IfSome result (λ now. (before : KeptFile) × (kept ≡ Some before) × (now.name ≡ before.name)
        × (now.bytes.items ≡ before.bytes.items ++ piece.now)) }
    ensures few { IfSome result (λ now. length now.bytes.items ≤ 4194305) }
{
    let KeptFile { name, mut bytes } = kept?;
    if bytes.len().saturating_add(piece.len()) > MOST_KEPT {
        return None;
    }
    match bytes.extend_from_slice(piece) {
        Ok(()) => Some(KeptFile { name, bytes }),
        Err(_) => None,
    }
}

impl<F: Read> Read for FileBytes<F> {
    fn read(&mut self, buf: &mut [u8]) -> io::Result<usize> {
        match self {
            FileBytes::Opened(file) => file.read(buf),
            FileBytes::Copied(file, kept) => {
                let count = file.read(buf)?;
                *kept = kept_with(kept.take(), &buf[..count]);
                Ok(count)
            }
            FileBytes::Again(_, bytes) => bytes.read(buf),
        }
    }
}

/// The files of the system.
#[derive(Drop)]
pub struct FileSystem<'a, R> {
    rt: &'a R,
    faults: u64,
    has_opened: bool,
    has_ended: bool,
    /// What was kept of the first file that was opened.
    first: Option<KeptFile>,
}

impl<'a, R> FileSystem<'a, R> {
    /// No file was opened.
    pub fn new(rt: &'a R) -> FileSystem<'a, R>
        ensures { result.faults ≡ 0 }
    {
        FileSystem {
            rt,
            faults: 0,
            has_opened: false,
            has_ended: false,
            first: None,
        }
    }

    /// The run has ended: what was kept is handed out in the place of its file, and no other file is opened that can be
    /// read once alone.
    pub fn end(&mut self) {
        self.has_ended = true;
    }
}

/// Whether what stands under this name may have other bytes where it is opened anew, or none.
fn is_read_once<R: Files>(rt: &R, name: &str) -> bool {
    match fs::metadata(rt, name) {
        Ok(found) => !found.is_file(),
        Err(_) => false,
    }
}

/// A file of this name of which nothing was read yet; nothing where there is no memory.
fn unread(alloc: Global, name: &str) -> Option<KeptFile>
    ensures { IfSome result (λ kept. (string_bytes kept.name ≡ name.now) × (kept.bytes.items ≡ [])) }
{
    match String::from_str(alloc, name) {
        Ok(name) => Some(KeptFile {
            name,
            bytes: Vec::new(alloc),
        }),
        Err(_) => None,
    }
}

/// Takes what was kept of the file of this name.
fn take_kept(first: &mut Option<KeptFile>, name: &str) -> Option<KeptFile>
    ensures { IfSome result (λ kept. (first.old ≡ Some kept) × (string_bytes kept.name ≡ name.now)) }
{
    let kept = first.take()?;
    if kept.name.as_str() == name {
        return Some(kept);
    }
    *first = Some(kept);
    None
}

impl<R: Files + AllocGlobal> FileSystem<'_, R> {
    /// Opens a file of the run.
    fn opened(&mut self, name: &str) -> Option<FileBytes<R::File>>
        ensures { self.new.faults ≡ self.old.faults }
    {
        let is_first = !self.has_opened;
        self.has_opened = true;
        let Ok(file) = fs::open(self.rt, name) else {
            return None;
        };
        if is_first && is_read_once(self.rt, name) {
            return Some(FileBytes::Copied(file, unread(self.rt.alloc(), name)));
        }
        Some(FileBytes::Opened(file))
    }

    /// Opens a file once more, when the run has ended.
    fn opened_again(&mut self, name: &str) -> Option<FileBytes<R::File>>
        ensures { self.new.faults ≡ self.old.faults }
    {
        if let Some(kept) = take_kept(&mut self.first, name) {
            return Some(FileBytes::Again(kept.name, Cursor::new(kept.bytes)));
        }
        if is_read_once(self.rt, name) {
            return None;
        }
        match fs::open(self.rt, name) {
            Ok(file) => Some(FileBytes::Opened(file)),
            Err(_) => None,
        }
    }

    /// What is to be read under this name; nothing where that cannot be opened.
    fn bytes_of(&mut self, name: &str) -> Option<FileBytes<R::File>>
        ensures { self.new.faults ≡ self.old.faults }
    {
        if self.has_ended {
            self.opened_again(name)
        } else {
            self.opened(name)
        }
    }
}

impl<R: Files + AllocGlobal> Shelf for FileSystem<'_, R> {
    type Src = CountedReader<FileBytes<R::File>>;

    ghost file = { λ _ _. None };

    ghost asked = { λ _. None };

    ghost open_sources = { λ _. None };

    ghost faults = { λ s. s.faults };

    fn open(&mut self, name: &str) -> Result<CountedReader<FileBytes<R::File>>, Failed> {
        match self.bytes_of(name) {
            Some(bytes) => Ok(CountedReader::new(bytes)),
            None => {
                self.faults = self.faults.saturating_add(1);
                Err(Failed)
            }
        }
    }

    fn close(&mut self, src: CountedReader<FileBytes<R::File>>) {
        if src.has_failed() {
            self.faults = self.faults.saturating_add(1);
            return;
        }
        match src.into_inner() {
            FileBytes::Opened(_) => {}
            FileBytes::Copied(_, kept) => self.first = kept,
            FileBytes::Again(name, bytes) => {
                self.first = Some(KeptFile {
                    name,
                    bytes: bytes.into_inner(),
                });
            }
        }
    }
}
