// The state of a cylinder, which a clause sees as its number.
ghost use Rattle.std.specs.Prelude.{◌≡◌, ◌≤◌, ◌↔◌, IsSome, IfSome, IsTrue};
ghost use Rattle.volume_table.specs.States.{state_number};

/// Where the truth about a cylinder lies. The numbers are those that stand in a row's block.
#[derive(Clone, Copy, PartialEq, Eq)]
pub enum CylinderState {
    /// Never written, not staged.
    Blank = 0,
    /// On its cartridge, not staged.
    OnCartridge = 1,
    /// Never written, staged: its frame holds blank tracks.
    StagedBlank = 2,
    /// On its cartridge and staged: its frame holds the same.
    Staged = 3,
    /// Written since it was staged: its frame alone holds the truth.
    Changed = 4,
}

impl CylinderState {
    /// The state with this number. None exactly above 4.
    pub fn of(number: u8) -> Option<Self>
        ensures in_range { IsSome result ↔ (number ≤ 4) }
        ensures value { IfSome result (λ state. state_number state ≡ number) }
    {
        match number {
            0 => Some(CylinderState::Blank),
            1 => Some(CylinderState::OnCartridge),
            2 => Some(CylinderState::StagedBlank),
            3 => Some(CylinderState::Staged),
            4 => Some(CylinderState::Changed),
            _ => None,
        }
    }

    /// The number, 0 to 4.
    pub fn number(self) -> u8
        ensures value { result ≡ state_number self }
        ensures in_range { result ≤ 4 }
    {
        self as u8
    }

    /// Whether the cylinder stands in a frame.
    pub fn is_staged(self) -> bool
        ensures { IsTrue result ↔ (2 ≤ state_number self) }
    {
        self.number() >= 2
    }
}
