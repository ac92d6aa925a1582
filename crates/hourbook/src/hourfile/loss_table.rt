//! The losses of a region's lines.
ghost use Rattle.std.specs.Prelude.{◌≡◌, slice_index};

// Ten-thousandths by line. A line past the end has no loss.
#[derive(Drop)]
pub(crate) struct LossTable {
    losses: Vec<u16>,
}

impl From<Vec<u16>> for LossTable {
    ghost from_gives = { λ losses table. table.losses.items ≡ losses.items };

    fn from(losses: Vec<u16>) -> LossTable {
        LossTable { losses }
    }
}

impl LossTable {
    pub(crate) fn at(&self, k: usize) -> u16
        ensures { result ≡ slice_index self.now.losses.items k }
    {
        self.losses.get(k).copied().unwrap_or(0)
    }
}
