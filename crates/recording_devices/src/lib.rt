//! A data recording device, which reads and writes a cartridge: it holds one, or none.
//!
//! A clause sees a recorder as the cartridge that it holds. The layers above rely on that alone.
#![tactic(auto)]

ghost use Rattle.std.specs.Prelude.{◌≡◌, Some, None, OnOk, IfErr};

use mss_base::CartridgeNo;
use std::marker::Model;

/// A data recording device.
#[derive(Drop)]
pub struct Recorder {
    cartridge: Option<CartridgeNo>,
}

/// A cartridge is in the recorder already.
#[derive(Clone, Copy)]
pub struct RecorderBusy {
    pub holds: CartridgeNo,
}

impl Model for Recorder {
    ghost use Rattle.std.specs.Prelude.{ℕ, Option};

    ghost Value = { Option ℕ };

    ghost view = { λ r. r.cartridge };
}

impl Recorder {
    /// A recorder without a cartridge.
    pub fn empty() -> Recorder
        ensures { result ≡ None }
    {
        Recorder { cartridge: None }
    }

    /// The cartridge in it.
    pub fn holds(&self) -> Option<CartridgeNo>
        ensures { result ≡ self.now }
    {
        self.cartridge
    }

    /// Puts a cartridge in. It is refused exactly where one is in it, also where it is this one, and then nothing changes.
    pub fn load(&mut self, cartridge: CartridgeNo) -> Result<(), RecorderBusy>
        ensures loaded { OnOk result ((self.old ≡ None) × (self.new ≡ Some cartridge)) }
        ensures busy { IfErr result (λ busy. (self.old ≡ Some busy.holds) × (self.new ≡ self.old)) }
    {
        if let Some(holds) = self.cartridge {
            return Err(RecorderBusy { holds });
        }
        self.cartridge = Some(cartridge);
        Ok(())
    }

    /// Takes the cartridge out, if there is one.
    pub fn unload(&mut self) -> Option<CartridgeNo>
        ensures was { result ≡ self.old }
        ensures empty { self.new ≡ None }
    {
        self.cartridge.take()
    }
}
