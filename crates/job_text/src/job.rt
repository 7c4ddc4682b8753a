//! Jobs.
use channel_program::Program;
use mss_base::{Config, HostNo, Listed, VolumeNo};
use std::marker::Model;

/// What a host does next.
#[derive(Drop)]
pub enum Item {
    /// Mounts a volume, bound or not.
    Mount { volume: VolumeNo, bind: bool },
    /// Demounts what is mounted.
    Demount,
    /// Runs a program.
    Run(Program),
}

/// What a host does, in order.
pub type ItemList = Listed<Item>;

/// A host and what it does, in order.
#[derive(Drop)]
pub struct HostScript {
    pub host: HostNo,
    pub items: ItemList,
}

impl Model for HostScript {
    ghost use Rattle.std.specs.Prelude.{map};
    ghost use Rattle.job_text.specs.Jobs.{ScriptData};
    ghost use Rattle.job_text.specs.Views.{item_of};

    ghost Value = { ScriptData };

    ghost view = { λ s. record { host = s.host; items = map item_of s.items.items } };
}

/// Hosts in the order in which they are named.
pub type HostScripts = Listed<HostScript>;

/// What a session is made of, and what its hosts do.
///
/// Its hosts differ, and mount volumes of the configuration alone. A host has at most 1,024 items, a program 1 to 256
/// words, an argument at most 65,798 bytes, and all arguments at most 268,435,456 bytes.
#[derive(Drop)]
pub struct Job {
    pub config: Config,
    pub hosts: HostScripts,
}

impl Model for Job {
    ghost use Rattle.job_text.specs.Jobs.{JobData, IsJob};

    ghost Value = { JobData };

    ghost view = { λ j. record { config = j.config; hosts = j.hosts.items } };

    ghost invariant = { λ j. IsJob (record { config = j.config; hosts = j.hosts.items }) };
}
