//! Pages' files as files by their names.
ghost use Rattle.std.specs.Prelude.{◌≡◌, ◌++◌, ◌≤◌, IfSome, OnErr, OnOk, option_map};
ghost use Rattle.std.specs.Prelude.{string_bytes, true};
ghost use Rattle.liquid_files.specs.Files.{IsPut, IsSet, gone, holds};
ghost use Rattle.liquid_files.specs.Names.{hidden_names};
ghost use Rattle.liquid_files.specs.Parts.{IsKept, TakesPlace, files_below};
ghost use Rattle.liquid_files.specs.Standings.{IsNoSource, is_own};
ghost use Rattle.liquid_files.specs.Stories.{Between};
ghost use Rattle.liquid_files.specs.declared.system.FileId.{FileId};

use crate::disk::{Disk, DiskFault};
use crate::page_files::PageFiles;
use crate::parts::is_part_path;
use crate::system::{Content, FileId, FileSystem};
use std::io;

impl<S: FileSystem> Disk for PageFiles<S> {
    ghost files = { λ d. option_map (files_below (string_bytes d.bounds.front))
        (S.story d.system) };

    fn read(&self, name: &str) -> Result<Option<String>, DiskFault> {
        let path = self.path_of(name)?;
        if is_part_path(path.as_str()) {
            return Err(DiskFault::Refused(io::ErrorKind::InvalidFilename));
        }
        self.system.read(path.as_str())
    }

    // Besides what every disk ensures: at each moment the file holds the page or what it held, and
    // what is never written is refused.
    fn write(&mut self, name: &str, text: &str) -> Result<(), DiskFault>
        ensures put { IfSome (option_map (files_below (string_bytes self.old.bounds.front))
            (S.story self.old.system)) (λ f. IsPut name.now text.now f result
            (option_map (files_below (string_bytes self.new.bounds.front))
            (S.story self.new.system))) }
        ensures placed { OnOk result
            (Between (TakesPlace (string_bytes self.old.bounds.front ++ name.now)
            (λ _. holds text.now)) (S.story self.old.system) (S.story self.new.system)) }
        ensures kept { OnErr result (Between IsKept (S.story self.old.system)
            (S.story self.new.system)) }
        ensures source { OnOk result (IfSome (S.stands self.old.system)
            (λ s. IsNoSource ⟦<FileId as Ord>⟧.cmp self.old.sources
            (s (string_bytes self.old.bounds.front ++ name.now)))) }
        ensures own { OnOk result (IfSome (S.stands self.old.system)
            (λ s. is_own (s (string_bytes self.old.bounds.front ++ name.now)) ≡ true)) }
        ensures hidden { OnOk result
            (hidden_names (string_bytes self.old.bounds.front ++ name.now)
            ≤ self.old.bounds.hidden) }
    {
        let path = self.path_of(name)?;
        self.put(path.as_str(), Content::Text(text))
    }

    // The same of a copy. A part is no page that could be copied.
    fn copy(&mut self, from: &str, name: &str) -> Result<(), DiskFault>
        ensures put { IfSome (option_map (files_below (string_bytes self.old.bounds.front))
            (S.story self.old.system)) (λ f. IsSet name.now (f from.now) f result
            (option_map (files_below (string_bytes self.new.bounds.front))
            (S.story self.new.system))) }
        ensures placed { OnOk result
            (Between (TakesPlace (string_bytes self.old.bounds.front ++ name.now)
            (λ f. f (string_bytes self.old.bounds.front ++ from.now)))
            (S.story self.old.system) (S.story self.new.system)) }
        ensures kept { OnErr result (Between IsKept (S.story self.old.system)
            (S.story self.new.system)) }
        ensures source { OnOk result (IfSome (S.stands self.old.system)
            (λ s. IsNoSource ⟦<FileId as Ord>⟧.cmp self.old.sources
            (s (string_bytes self.old.bounds.front ++ name.now)))) }
        ensures own { OnOk result (IfSome (S.stands self.old.system)
            (λ s. is_own (s (string_bytes self.old.bounds.front ++ name.now)) ≡ true)) }
        ensures hidden { OnOk result
            (hidden_names (string_bytes self.old.bounds.front ++ name.now)
            ≤ self.old.bounds.hidden) }
    {
        let source = self.path_of(from)?;
        if is_part_path(source.as_str()) {
            return Err(DiskFault::Refused(io::ErrorKind::InvalidFilename));
        }
        let path = self.path_of(name)?;
        self.put(path.as_str(), Content::Copy(source.as_str()))
    }

    // The same of a file that is taken away: what is never written is never taken away.
    fn remove(&mut self, name: &str) -> Result<(), DiskFault>
        ensures put { IfSome (option_map (files_below (string_bytes self.old.bounds.front))
            (S.story self.old.system)) (λ f. IsSet name.now gone f result
            (option_map (files_below (string_bytes self.new.bounds.front))
            (S.story self.new.system))) }
        ensures placed { OnOk result
            (Between (TakesPlace (string_bytes self.old.bounds.front ++ name.now) (λ _. gone))
            (S.story self.old.system) (S.story self.new.system)) }
        ensures kept { OnErr result (Between IsKept (S.story self.old.system)
            (S.story self.new.system)) }
        ensures source { OnOk result (IfSome (S.stands self.old.system)
            (λ s. IsNoSource ⟦<FileId as Ord>⟧.cmp self.old.sources
            (s (string_bytes self.old.bounds.front ++ name.now)))) }
        ensures own { OnOk result (IfSome (S.stands self.old.system)
            (λ s. is_own (s (string_bytes self.old.bounds.front ++ name.now)) ≡ true)) }
        ensures hidden { OnOk result
            (hidden_names (string_bytes self.old.bounds.front ++ name.now)
            ≤ self.old.bounds.hidden) }
    {
        let path = self.path_of(name)?;
        self.take_away(path.as_str())
    }
}
