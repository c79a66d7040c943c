//! A shelf of files in memory.
ghost use Rattle.std.specs.Prelude.{◌≡◌, ◌≢◌, ℕ, ◌+◌, ◌^◌, List, ◌<◌, ◌≤◌, None, IfOk, IfSome, MatchResult, Some};
ghost use Rattle.std.specs.Prelude.{length};
ghost use Rattle.std.specs.Option.{option_map};
ghost use Rattle.kb_io.specs.Outside.{HasCause, GrewByName, KeptNames, Closes, OpensOne, RaisedByOne, LoweredByOne};
ghost use Rattle.kb_io.specs.Files.{source_named, file_named, without, AreFresh, NamesDiffer, names_of};

use crate::source::{MemFile, MemSource};
use crate::traits::{Failed, Shelf};
use std::marker::Model;

/// A shelf of files in memory, each of which it hands out once. Another name and a second opening are faults.
#[derive(Drop)]
pub struct MemShelf {
    files: Vec<MemFile>,
    asked: Option<Vec<String>>,
    open_sources: Option<u64>,
    faults: u64,
}

impl Model for MemShelf {
    ghost use Rattle.std.specs.Option.{option_map};
    ghost use Rattle.kb_io.specs.Files.{ShelfState, AreFresh, NamesDiffer, names_of};

    ghost Value = { ShelfState };

    ghost view = { λ s. record {
      files = s.files.items;
      asked = option_map
          (λ names. names_of names.items) s.asked;
      open_sources = s.open_sources;
      faults = s.faults;
    } };

    ghost invariant = { λ s. NamesDiffer s.files.items × AreFresh s.files.items };
}

impl MemShelf {
    /// No source was handed out. The names asked for begin as `asked`.
    pub fn new(files: Vec<MemFile>, asked: Vec<String>) -> MemShelf
        requires differ { NamesDiffer files.items }
        requires fresh { AreFresh files.items }
        ensures { result ≡ record {
          files = files.items;
          asked = Some
              (names_of asked.items);
          open_sources = Some 0;
          faults = 0;
        } }
    {
        MemShelf {
            files,
            asked: Some(asked),
            open_sources: Some(0),
            faults: 0,
        }
    }
}

// Takes the first file of this name out.
fn take_named(files: &mut Vec<MemFile>, name: &str) -> Option<MemSource>
    ensures found { result ≡ source_named files.old.items name.now }
    ensures rest { files.new.items ≡ without name.now files.old.items }
{
    for i in 0..files.len() {
        if files[i].name.as_str() == name {
            let MemFile { name: _, source } = files.remove(i);
            return Some(source);
        }
    }
    None
}

// Writes the name down, or gives the list up where there is no memory.
fn write_down(asked: &mut Option<Vec<String>>, name: &str)
    ensures { GrewByName (option_map (λ names. names_of names.items) asked.old) (option_map
        (λ names. names_of names.items) asked.new) name.now }
{
    if let Some(mut names) = asked.take() {
        if let Ok(copy) = String::from_str(*names.allocator(), name) {
            if names.push(copy).is_ok() {
                *asked = Some(names);
            }
        }
    }
}

// One more, or no longer observable where the number would not fit.
fn checked_succ(count: Option<u64>) -> Option<u64>
    ensures raised { RaisedByOne count result }
    ensures told { IfSome count (λ n. n + 1 < 2 ^ 64 → result ≡ Some (n + 1)) }
{
    count?.checked_add(1)
}

// One less, or no longer observable where there was none.
fn checked_pred(count: Option<u64>) -> Option<u64>
    ensures lowered { LoweredByOne count result }
    ensures told { (n : ℕ) → count ≡ Some (n + 1) → result ≡ Some n }
{
    count?.checked_sub(1)
}

impl Shelf for MemShelf {
    type Src = MemSource;

    ghost file = { λ s name. file_named s.files name };

    ghost asked = { λ s. s.asked };

    ghost open_sources = { λ s. s.open_sources };

    ghost faults = { λ s. s.faults };

    fn open(&mut self, name: &str) -> Result<MemSource, Failed>
        ensures fresh { IfOk result (λ src. src.faults ≡ 0) }
        ensures bytes { IfOk result (λ src. IfSome (file_named self.old.files name.now)
            (λ bytes. Some src.left ≡ Some bytes)) }
        ensures others { (other : List ℕ) → other ≢ name.now
            → file_named self.new.files other ≡ file_named self.old.files other }
        ensures names { GrewByName self.old.asked self.new.asked name.now }
        ensures handed_out { OpensOne result self.old.open_sources self.new.open_sources }
        ensures cause { HasCause self.old.faults self.new.faults result }

        // Each file is handed out once, as it lies there, and nothing else is.
        ensures named { MatchResult result (λ src. source_named self.old.files name.now ≡ Some src)
            (λ _. source_named self.old.files name.now ≡ None) }
        ensures rest { self.new.files ≡ without name.now self.old.files }
        ensures once { source_named self.new.files name.now ≡ None }
        ensures told { IfOk result (λ _. IfSome self.old.open_sources (λ n. n + 1 < 2 ^ 64
            → self.new.open_sources ≡ Some (n + 1))) }
    {
        write_down(&mut self.asked, name);
        match take_named(&mut self.files, name) {
            Some(source) => {
                self.open_sources = checked_succ(self.open_sources);
                Ok(source)
            }
            None => {
                self.faults = self.faults.saturating_add(1);
                Err(Failed)
            }
        }
    }

    fn close(&mut self, src: MemSource)
        ensures files { (name : List ℕ) → file_named self.new.files name ≡ file_named self.old.files name }
        ensures names { KeptNames self.old.asked self.new.asked }
        ensures taken_back { LoweredByOne self.old.open_sources self.new.open_sources }
        ensures cause { Closes src.faults self.old.faults self.new.faults }

        // The files stay, and the number is observable where it was above 0.
        ensures rest { self.new.files ≡ self.old.files }
        ensures asked { self.new.asked ≡ self.old.asked }
        ensures told { (n : ℕ) → self.old.open_sources ≡ Some (n + 1) → self.new.open_sources ≡ Some n }
    {
        self.open_sources = checked_pred(self.open_sources);
        if src.faults() > 0 {
            self.faults = self.faults.saturating_add(1);
        }
    }
}
