//! Texts that are cut at markers, and the sections of a case.
ghost use Rattle.std.specs.Prelude.{None, ◌<◌, length, IfSome, MatchOption};
ghost use Rattle.memchr.specs.Find.{FindsNeedle};
ghost use Rattle.consult_cases.specs.Cases.{IsCutAt, IsCase};

use memchr::memmem;
use std::alloc::{AllocError, Global};
use std::str;

/// What stands between the sections of a case.
const SECTION: &[u8] = b"\n--\n";

/// A run: how the devices hand over their bytes and the words, the file and the commands.
#[derive(Clone, Copy)]
pub struct Case<'a> {
    pub head: &'a [u8],
    pub file: &'a [u8],
    pub script: &'a [u8],
}

/// The text before the first marker, and the text after it.
pub fn cut_at<'a>(text: &'a [u8], marker: &[u8]) -> Option<(&'a [u8], &'a [u8])>
    ensures cut { MatchOption result (FindsNeedle text.now marker.now 0 None)
        (λ parts. IsCutAt marker.now text.now parts.0.now parts.1.now) }
    ensures shorter { 0 < length marker.now → IfSome result (λ parts. length parts.1.now < length text.now) }
{
    let len = memmem::find(text, marker)?;
    let (before, rest) = text.split_at(len);
    let (_, after) = rest.split_at(marker.len());
    Some((before, after))
}

/// The case of a text with three sections.
pub fn case_of(text: &[u8]) -> Option<Case<'_>>
    ensures { IfSome result (λ case. IsCase text.now case.head.now case.file.now case.script.now) }
{
    let (head, rest) = cut_at(text, SECTION)?;
    let (file, script) = cut_at(rest, SECTION)?;
    Some(Case { head, file, script })
}

/// The words of a text, with blanks between them; none where it is no text.
pub fn words_of(alloc: Global, text: &[u8]) -> Result<Vec<String>, AllocError> {
    let mut words = Vec::new(alloc);
    if let Ok(text) = str::from_utf8(text) {
        for word in text.split(' ') {
            words.push(String::from_str(alloc, word)?)?;
        }
    }
    Ok(words)
}
