//! Nobody gets stuck: where the recorders have nothing left to do, some host's call goes on, and what is left of the
//! work and of a run falls.
//!
//! `specs/CoreFits.antt` says what that needs of a core, `specs/Progress.antt` who is kept waiting,
//! `specs/WorkLeft.antt` how much is left, and `specs/Rounds.antt` what rounds are. The layers above rely on the laws:
//! - What is needed follows from what every core keeps, a core whose recorders are idle is settled, and of a settled
//!   core some host's call isn't kept waiting, as long as each host with an open chain or a request has a call.
//! - `settle_left` falls at whatever a recorder does, and `run_left` doesn't rise then. `run_left` falls at each call
//!   that isn't kept waiting, unless the run ends with it; one that is kept waiting changes nothing. So work comes to
//!   an end, and so do answers.
//! - In a round some host is answered, or asks for a cylinder; of two rounds one has an answer; and a host is told at
//!   most once that its write may go on, until it is replied.
//!
//! A core with other devices has the same rules and as much left to do: `proofs/OtherDevices.antt`.
#![tactic(auto)]

pub mod law;
