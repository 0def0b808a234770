//! Rulesets for pfctl(8) in files, one for each path.

ghost use Rattle.std.specs.Prelude.{◌≡◌, false, List, [], ◌∷◌, IfOk, IfSome, IfNone, OnOk, OnErr, map, string_bytes, is_ok};
ghost use Rattle.std.specs.List.{list_all, list_any, AllByRecursion};
ghost use Rattle.pf_dump.specs.Done.{AreDoneTo};
ghost use Rattle.pf_dump.specs.Seen.{text_of};
ghost use Rattle.pf_dump.specs.Written.{texts_of};
ghost use Rattle.cli_follow.specs.Exchanges.{Adds};
ghost use Rattle.cli_follow.specs.Files.{Act, Wrote, Renamed, Acted, IsDone, PutsOnce, Puts};
ghost use Rattle.cli_follow.specs.Files.{PutsFront};
ghost use Rattle.cli_follow.specs.Files.{file_value, file_name, file_at, files_of, is_named, is_put, is_there};
ghost use Rattle.cli_follow.specs.Files.{with_gone, are_behind, ArePutFor, AreLeftFor};

use crate::followed_configuration::FollowedConfiguration;
use crate::follower::log_refusal;
use cli_io::NO_SCRIPT;
use pf_config::Config;
use pf_dump::{PathText, texts};
use pf_rules::Name;
use std::alloc::{AllocError, Global};
use std::fs::{self, Files, OpenOptions};
use std::io::{self, Write};

/// What is made, unless out of memory.
pub(crate) type Made<T> = Result<T, AllocError>;

/// A file and its text.
#[derive(Drop)]
struct TextFile {
    name: String,
    text: String,
    /// Whether the text is there.
    is_put: bool,
}

/// The files of a folder.
#[derive(Drop)]
pub struct TextFiles {
    folder: String,
    written: Vec<TextFile>,
    /// Whether a file couldn't be written, so that what is there is of an earlier configuration.
    pub(crate) is_behind: bool,
}

/// Whether a file couldn't be written.
pub(crate) fn are_behind(files: &Option<TextFiles>) -> bool
    ensures { result ≡ are_behind files.now }
{
    files.as_ref().is_some_and(|files| files.is_behind)
}

/// The name of a path's file: `main.conf`, or `anchor` and the names behind a `+` each, which no name has, and `.conf`.
fn file_name(alloc: Global, path: &[Name]) -> Result<String, AllocError>
    ensures { IfOk result (λ name. string_bytes name ≡ file_name path.now) }
{
    if path.is_empty() {
        return String::from_str(alloc, "main.conf");
    }
    let mut name = String::from_str(alloc, "anchor")?;
    for part in path {
        name.push('+')?;
        name.push_str(part.as_str())?;
    }
    name.push_str(".conf")?;
    Ok(name)
}

/// Whether one of the files has this name.
fn has_name(files: &[TextFile], name: &str) -> bool
    ensures { result ≡ list_any (is_named name.now) (map file_value files.now) }
{
    files.iter().any(|file| file.name.as_str() == name)
}

/// The files of rulesets.
fn files_in(alloc: Global, texts: Vec<PathText<'_>>) -> Result<Vec<TextFile>, AllocError>
    ensures { IfOk result (λ files. map file_value files.items ≡ map file_at (map text_of texts.entry.items)) }
{
    let mut files = Vec::new(alloc);
    for it in texts {
        let PathText { path, text } = it;
        let (name, is_put) = (file_name(alloc, path)?, false);
        files.push(TextFile { name, text, is_put })?;
    }
    Ok(files)
}

/// The files of a configuration: those of all paths that a command may load, and main's in any case. None where
/// rulesets don't give it.
fn files_of(alloc: Global, config: &Config) -> Result<Option<Vec<TextFile>>, AllocError>
    ensures files { IfOk result (λ o. IfSome o (λ files. map file_value files.items ≡ files_of config.now)) }
    ensures done { IfOk result (λ o. IfSome o (λ _. AreDoneTo (texts_of config.now) config.now)) }
    ensures none { IfOk result (λ o. IfNone o (AreDoneTo (texts_of config.now) config.now → ⊥)) }
{
    let Some(texts) = texts(alloc, config)? else {
        return Ok(None);
    };
    let mut files = files_in(alloc, texts)?;
    if !has_name(files.as_slice(), "main.conf") {
        let name = String::from_str(alloc, "main.conf")?;
        let (text, is_put) = (String::new(alloc), false);
        files.push(TextFile { name, text, is_put })?;
    }
    Ok(Some(files))
}

/// Whether this is there.
fn is_written(files: &[TextFile], name: &str, text: &str) -> bool
    ensures { result ≡ list_any (is_there name.now text.now) files.now }
{
    files.iter().any(|old| old.is_put && old.name.as_str() == name && old.text.as_str() == text)
}

/// Where files are written and renamed.
pub trait Folders {
    // this was done so far, in order
    ghost done: { Self → List Act → Type 0 };

    /// Writes a new file: what is at this path is removed first.
    fn write_file(&mut self, path: &str, text: &str) -> io::Result<()>
        ensures { Adds (done self.old) (done self.new) (Wrote path.now text.now (is_ok result) ∷ []) };

    /// Renames a file.
    fn rename(&mut self, from: &str, to: &str) -> io::Result<()>
        ensures { Adds (done self.old) (done self.new) (Renamed from.now to.now (is_ok result) ∷ []) };
}

/// The system's files.
#[derive(Clone, Copy)]
pub struct SystemFiles<'a, R> {
    pub rt: &'a R,
}

impl<R: Files> Folders for SystemFiles<'_, R> {
    // no contract states which file is at a path
    ghost done = { λ _ acts. AllByRecursion (IsDone R.File.contents) acts };

    fn write_file(&mut self, path: &str, text: &str) -> io::Result<()> {
        // what is there goes first, a link too, whose target stays as it is
        let _gone = fs::remove_file(self.rt, path);
        let mut file = OpenOptions::new()
            .write(true)
            .create_new(true)
            .open(self.rt, path)?;
        file.write_all(text.as_bytes())
    }

    fn rename(&mut self, from: &str, to: &str) -> io::Result<()> {
        fs::rename(self.rt, from, to)
    }
}

impl TextFiles {
    /// Before anything is written.
    pub fn new(alloc: Global, folder: &str) -> Result<TextFiles, AllocError>
        ensures folder { IfOk result (λ f. string_bytes f.folder ≡ folder.now) }
        ensures none { IfOk result (λ f. f.written.items ≡ []) }
        ensures behind { IfOk result (λ f. f.is_behind ≡ false) }
    {
        Ok(TextFiles {
            folder: String::from_str(alloc, folder)?,
            written: Vec::new(alloc),
            is_behind: false,
        })
    }

    /// Writes a file beside its place and renames it, unless it is there, and answers whether it is there now.
    fn put_once<F: Folders>(&self, folders: &mut F, name: &str, text: &str) -> Made<bool>
        ensures put { IfOk result (λ is_put. Acted (F.done folders.old) (F.done folders.new) (λ acts.
            PutsOnce (string_bytes self.now.folder) self.now.written.items name.now text.now acts is_put)) }
        ensures none { OnErr result (Adds (F.done folders.old) (F.done folders.new) []) }
    {
        if is_written(self.written.as_slice(), name, text) {
            return Ok(true);
        }
        let alloc = *self.written.allocator();
        let folder = self.folder.as_str();
        let place = format!(in alloc; "{folder}/{name}")?;
        let beside = format!(in alloc; "{folder}/.{name}.new")?;
        let is_put = folders.write_file(beside.as_str(), text).is_ok()
            && folders.rename(beside.as_str(), place.as_str()).is_ok();
        Ok(is_put)
    }

    /// The files, and empty ones for paths that are gone.
    fn with_gone(&self, mut files: Vec<TextFile>) -> Result<Vec<TextFile>, AllocError>
        ensures { IfOk result (λ all.
            map file_value all.items ≡ with_gone (map file_value files.items) self.now.written.items) }
    {
        let alloc = *self.written.allocator();
        let written = self.written.as_slice();
        for old in written {
            let is_emptied = old.text.as_str().is_empty() && old.is_put;
            if !has_name(files.as_slice(), old.name.as_str()) && !is_emptied {
                let name = String::from_str(alloc, old.name.as_str())?;
                let (text, is_put) = (String::new(alloc), false);
                files.push(TextFile { name, text, is_put })?;
            }
        }
        Ok(files)
    }

    /// Writes those files that aren't written so yet, and answers which are there.
    fn put_each<F: Folders>(&self, folders: &mut F, files: Vec<TextFile>) -> Made<Vec<TextFile>>
        ensures put { IfOk result (λ put. Acted (F.done folders.old) (F.done folders.new) (λ acts.
            Puts (string_bytes self.now.folder) self.now.written.items (map file_value files.items)
            acts put.items)) }
        ensures front { OnErr result (Acted (F.done folders.old) (F.done folders.new) (λ acts.
            PutsFront (string_bytes self.now.folder) self.now.written.items
            (map file_value files.items) acts)) }
    {
        let mut put = Vec::new(*self.written.allocator());
        for file in files {
            let TextFile { name, text, .. } = file;
            let is_put = self.put_once(folders, name.as_str(), text.as_str())?;
            put.push(TextFile { name, text, is_put })?;
        }
        Ok(put)
    }

    /// Writes those files that aren't written so yet, empty ones for paths that are gone, and answers whether all could
    /// be.
    fn put_all<F: Folders>(&mut self, folders: &mut F, files: Vec<TextFile>) -> Made<bool>
        ensures folder { self.new.folder ≡ self.old.folder }
        ensures put { OnOk result (Acted (F.done folders.old) (F.done folders.new) (λ acts.
            Puts (string_bytes self.old.folder) self.old.written.items
            (with_gone (map file_value files.items) self.old.written.items) acts self.new.written.items)) }
        ensures whole { IfOk result (λ is_whole. is_whole ≡ list_all is_put self.new.written.items) }
        ensures front { OnErr result (Acted (F.done folders.old) (F.done folders.new) (λ acts.
            PutsFront (string_bytes self.old.folder) self.old.written.items
            (with_gone (map file_value files.items) self.old.written.items) acts)) }
    {
        let files = self.with_gone(files)?;
        self.written = self.put_each(folders, files)?;
        Ok(self.written.iter().all(|file| file.is_put))
    }

    /// Writes the files of what was followed. That one couldn't be written is logged once until it could be. Where
    /// rulesets don't give the configuration that is said, and the files stay as they are.
    pub(crate) fn write<F: Folders, E: Write>(
        &mut self,
        folders: &mut F,
        followed: &FollowedConfiguration,
        errors: &mut E,
    ) -> Result<(), AllocError>
        ensures put { OnOk result (Acted (F.done folders.old) (F.done folders.new)
            (λ acts. ArePutFor followed.now.config self.old acts self.new)) }
        ensures front { OnErr result (Acted (F.done folders.old) (F.done folders.new)
            (λ acts. AreLeftFor followed.now.config self.old acts)) }
    {
        let Some(files) = files_of(*self.written.allocator(), &followed.config)? else {
            log_refusal(errors, followed.position, NO_SCRIPT);
            return Ok(());
        };
        let is_behind = !self.put_all(folders, files)?;
        if is_behind && !self.is_behind {
            let position = followed.position;
            let _logged = writeln!(errors, "pfx: at {position} a file couldn't be written");
        }
        self.is_behind = is_behind;
        Ok(())
    }
}
