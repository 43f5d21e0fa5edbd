// Corners and their statuses as numbers: southwest 1, southeast 2, northwest 4, northeast 8.
ghost use Rattle.std.specs.Prelude.{◌≡◌};
ghost use Rattle.model.specs.Corner.{Bits, any_bit, bit, number, set_bit};
ghost use Rattle.corner.specs.Weights.{dir, weight};

// A corner of a cell.
#[derive(Clone, Copy)]
pub enum Corner {
    Southwest = 1,
    Southeast = 2,
    Northwest = 4,
    Northeast = 8,
}

// Which corners a cell has.
#[derive(Clone, Copy)]
pub struct CornerStatus {
    pub bits: u8,
}

impl Corner {
    pub(crate) fn bit(self) -> u8
        ensures { result ≡ weight (dir self) }
    {
        self as u8
    }
}

impl CornerStatus {
    pub fn get(self, corner: Corner) -> bool
        ensures { (b : Bits) → self.bits ≡ number b → result ≡ bit (dir corner) b }
    {
        self.bits & corner.bit() != 0
    }

    pub fn set(self, corner: Corner, on: bool) -> CornerStatus
        ensures { (b : Bits) → self.bits ≡ number b → result.bits ≡ number (set_bit (dir corner) on b) }
    {
        let w = corner.bit();
        let rest = self.bits ^ (self.bits & w);
        if on {
            return CornerStatus { bits: rest | w };
        }
        CornerStatus { bits: rest }
    }

    pub fn is_corner(self) -> bool
        ensures { (b : Bits) → self.bits ≡ number b → result ≡ any_bit b }
    {
        self.bits != 0
    }
}
