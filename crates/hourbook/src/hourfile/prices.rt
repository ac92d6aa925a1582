//! The prices of a region's zones, a table of their own.
ghost use Rattle.std.specs.Prelude.{◌≡◌, ◌≤◌, unsigned_abs};
ghost use Rattle.hourbook.specs.Tables.{cents_of, price_at};

use crate::hourfile::price::Price;

#[derive(Drop)]
pub(crate) struct Prices {
    list: Vec<Price>,
}

impl From<Vec<Price>> for Prices {
    ghost from_gives = { λ list prices. prices.list.items ≡ list.items };

    fn from(list: Vec<Price>) -> Prices {
        Prices { list }
    }
}

impl Prices {
    pub(crate) fn list(&self) -> &[Price]
        ensures { result.now ≡ self.now.list.items }
    {
        self.list.as_slice()
    }

    // In cents; zones are numbered from 1, and one that is not there counts 0.
    pub(crate) fn at(&self, zone: u8) -> i32
        ensures value { result ≡ price_at (cents_of self.now.list.items) zone }
        ensures bound { unsigned_abs result ≤ 500000 }
    {
        let k = usize::from(zone).saturating_sub(1);
        self.list.get(k).map_or(0, |price| price.get())
    }
}
