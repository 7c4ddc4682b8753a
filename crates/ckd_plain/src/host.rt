// What the plain machine keeps of a host.
ghost use Rattle.std.specs.Prelude.{◌≡◌};
ghost use Rattle.ckd_plain.specs.Effects.{at_cylinder_zero, prior_number};
ghost use Rattle.ckd_plain.specs.Plain.{fresh_host, with_volume};

use mss_base::{Cylinder, Head, VolumeNo};

/// Where a host stands on its track: at the index, or behind the home address, or behind the count, the key or all of
/// a record. R0 is record 0.
#[derive(Clone, Copy, Debug, PartialEq, Eq)]
pub enum Position {
    Start,
    Home,
    Count(u8),
    Key(u8),
    Done(u8),
}

/// What the command before left for a write: the record that it met or wrote.
#[derive(Clone, Copy, Debug, PartialEq, Eq)]
pub enum Prior {
    Nothing,
    IdEqual(u8),
    KeyEqual(u8),
    Wrote(u8),
}

/// The state of one host.
#[derive(Clone, Copy, Debug, PartialEq, Eq)]
pub struct HostState {
    // At the head, where it is copied by whole words.
    pub sense: [u8; 24],
    /// The volume, and whether its pages are bound while it is mounted.
    pub mounted: Option<(VolumeNo, bool)>,
    /// Whether that volume is read-only. It stays as it was after a demount.
    pub protected: bool,
    pub chain_open: bool,
    pub cylinder: Cylinder,
    pub head: Head,
    /// The file mask of the chain.
    pub mask: u8,
    pub position: Position,
    /// How often the chain passed the index without multi-track.
    pub passes: u8,
    pub prior: Prior,
}

impl Prior {
    /// The number of the record, 0 where there is none.
    pub fn number(&self) -> u8
        ensures { result ≡ prior_number self.now }
    {
        match *self {
            Prior::Nothing => 0,
            Prior::IdEqual(k) | Prior::KeyEqual(k) | Prior::Wrote(k) => k,
        }
    }
}

fn origin() -> (Cylinder, Head)
    ensures { (result.0 ≡ 0) × (result.1 ≡ 0) }
{
    let (Some(cylinder), Some(head)) = (Cylinder::of(0), Head::of(0)) else {
        unreachable!()
    };
    (cylinder, head)
}

impl HostState {
    /// A host at a session's start.
    pub fn fresh() -> HostState
        ensures { result ≡ fresh_host }
    {
        let (cylinder, head) = origin();
        HostState {
            mounted: None,
            protected: false,
            chain_open: false,
            cylinder,
            head,
            mask: 0,
            position: Position::Start,
            passes: 0,
            prior: Prior::Nothing,
            sense: [0; 24],
        }
    }

    /// The host with a volume mounted, which is read-only or not, on its first track.
    pub fn with_volume(&self, volume: VolumeNo, bind: bool, read_only: bool) -> HostState
        ensures { result ≡ with_volume self.now volume bind read_only }
    {
        let (cylinder, head) = origin();
        HostState {
            mounted: Some((volume, bind)),
            protected: read_only,
            cylinder,
            head,
            sense: [0; 24],
            ..*self
        }
    }

    /// Moves the host to the start of its volume's first track.
    pub fn recalibrate(&mut self)
        ensures { self.new ≡ at_cylinder_zero self.old }
    {
        let (cylinder, head) = origin();
        self.cylinder = cylinder;
        self.head = head;
        self.position = Position::Start;
    }
}
