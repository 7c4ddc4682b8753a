//! The simulator's devices on a real system: a folder of files, standard input, standard output.
//!
//! `FileSite` is a site whose units are files. It tells nothing, so the layers above rely on
//! nothing but `Site`'s counts. Below that its work is proved over any files (`UnitFiles`): it
//! fails only where a call of the files fails, and where they tell what they hold
//! (`specs/Files.antt`), it reads and writes the right bytes, and a sync makes them last. The blocks
//! that it brought last are kept, as many as 17 cylinders have, and go on being what the files hold
//! (`specs/KeptBlocks.antt`, `specs/SiteBlocks.antt`). Of one that ends in zeros its front is kept.
//! That real files (`Folder`) are such files is trusted. All memory is taken when the site is made,
//! so no call fails for want of it. `StdSource` and `StdSink` are a reader and a writer as a source
//! and a sink, which tell where the reader and the writer do. What lies in the folder:
//! docs/SITES.md.
#![tactic(auto)]

mod file_site;
mod folder;
mod kept_blocks;
mod names;
mod noted_places;
mod paths;
mod pieces;
mod short_blocks;
mod site_blocks;
mod site_file;
mod spoiled;
mod std_sink;
mod std_source;
mod transfer;
mod unit_files;

pub use file_site::FileSite;
pub use folder::Folder;
pub use paths::FolderPaths;
pub use std_sink::StdSink;
pub use std_source::StdSource;
pub use unit_files::UnitFiles;
