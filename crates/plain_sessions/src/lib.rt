//! What every session promises, at each of its moments, whatever its events were.
//!
//! `specs/Sessions.antt` says it in plain volumes: each reply is theirs in one history, the devices show the volumes after
//! it, and a stop at any moment leaves what the stop rule says, which a restart takes up. `law::sessions_are_plain` is the
//! theorem: it asks for a core that a restart made, and for one of the same session later. The layers above rely on both.
#![tactic(auto)]

pub mod law;
