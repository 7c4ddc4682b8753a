// The entry of a history.
use channel_commands::{Call, Reply};
use mss_base::HostNo;
use std::marker::Model;

/// One call of a history with its reply.
#[derive(Drop)]
pub struct Entry {
    pub host: HostNo,
    /// Which of its host's calls it is, from 1.
    pub number: u64,
    pub call: Call,
    pub reply: Reply,
    /// The count of faults behind `EquipmentCheck` and `Stopped`.
    pub fault: Option<u64>,
}

impl Model for Entry {
    ghost use Rattle.channel_commands.specs.Views.{call_of, reply_of};
    ghost use Rattle.ckd_plain.specs.History.{EntryData};

    ghost Value = { EntryData };

    ghost view = { λ e. record {
      host = e.host;
      number = e.number;
      call = call_of e.call;
      reply = reply_of e.reply;
      fault = e.fault;
    } };
}
