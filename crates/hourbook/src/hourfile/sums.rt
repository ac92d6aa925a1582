//! Sums by line or by leg.
ghost use Rattle.std.specs.Prelude.{◌≡◌, ◌-◌, replicate, slice_index};
ghost use Rattle.hourbook.specs.Numbering.{Numbered};
ghost use Rattle.hourbook.specs.Sums.{plus};

use crate::hourfile::names::is_numbered;

const MOST: u8 = 64;

// By number, in a table that allocates nothing. A sum may stop at the largest u16: the rules only tell 0 and 10,000 from
// other sums.
#[derive(Drop)]
pub(crate) struct Sums {
    amounts: [u16; 64],
}

impl Sums {
    pub(crate) fn new() -> Sums
        ensures { result.amounts ≡ replicate 64 0 }
    {
        Sums { amounts: [0; 64] }
    }

    // A number that no line or leg has adds nothing.
    pub(crate) fn add(&mut self, number: u8, amount: u16)
        ensures adds { Numbered 64 number → self.new.amounts ≡ plus self.old.amounts number amount }
        ensures same { (Numbered 64 number → ⊥) → self.new ≡ self.old }
    {
        if is_numbered(number, MOST) {
            let i = usize::from(number) - 1;
            self.amounts[i] = self.amounts[i].saturating_add(amount);
        }
    }

    pub(crate) fn get(&self, number: u8) -> u16
        ensures value { Numbered 64 number → result ≡ slice_index self.now.amounts (number - 1) }
        ensures none { (Numbered 64 number → ⊥) → result ≡ 0 }
    {
        if is_numbered(number, MOST) {
            self.amounts[usize::from(number) - 1]
        } else {
            0
        }
    }
}
