//! A region of the coordinated method: each border's flow is its allocated capacity.
ghost use Rattle.std.specs.Prelude.{◌≡◌, vec_len, MatchOption, ◌≢◌};
ghost use Rattle.hourbook.specs.Balance.{Judged};
ghost use Rattle.hourbook.specs.Tables.{cents_of, tenths_of};
ghost use Rattle.hourbook.specs.Coordinated.{border_line, coordinated_means};
ghost use Rattle.hourbook.specs.CoordinatedBounds.{coordinated_bounded};

use crate::hourfile::border::Border;
use crate::hourfile::method::Method;
use crate::hourfile::network::Network;
use crate::hourfile::prices::Prices;
use crate::region::fault::Flaw;
use crate::region::meaning::Region;
use crate::region::rows::{Line, LineEnd, Zone};

// The tables, with as many prices as net positions, and the verdict on them.
#[derive(Drop)]
pub(crate) struct Coordinated<'a> {
    network: &'a Network,
    prices: &'a Prices,
    verdict: Result<(), Flaw>,
    ghost paired: { vec_len prices.now.list ≡ vec_len network.now.positions },
}

impl<'a> Coordinated<'a> {
    // The region of tables of this method with as many prices as net positions, and none of others.
    pub(crate) fn new(network: &'a Network, prices: &'a Prices) -> Option<Coordinated<'a>>
        ensures { MatchOption result (network.now.method ≡ Method.Coordinated → vec_len prices.now.list ≢ vec_len network.now.positions) (λ s. (s.network.now ≡ network.now) × (s.prices.now ≡ prices.now) × Judged (tenths_of network.now.positions.items) network.now.borders.items s.verdict) }
    {
        if network.method() != Method::Coordinated
            || prices.list().len() != network.positions().len()
        {
            return None;
        }
        Some(Coordinated {
            network,
            prices,
            verdict: network.verdict(),
        })
    }

    // A border as a line.
    fn line_of(&self, border: &Border) -> Line
        ensures { result ≡ border_line (cents_of self.now.prices.now.list.items) border.now }
    {
        let near_price = self.prices.at(border.near);
        let far_price = self.prices.at(border.far);
        Line {
            near: border.near,
            far: LineEnd::Zone(border.far),
            flow: i64::from(border.capacity.get()) * 10_000,
            near_price,
            far_price,
            spread: far_price - near_price,
        }
    }
}

impl<'a> Region for Coordinated<'a> {
    ghost meaning = { λ s. coordinated_means (cents_of s.prices.now.list.items) (tenths_of s.network.now.positions.items) s.network.now.borders.items s.verdict };

    fn verdict(&self) -> Result<(), Flaw> {
        self.verdict
    }

    fn zone_count(&self) -> usize {
        self.verdict.map_or(0, |()| self.network.positions().len())
    }

    fn zone(&self, k: usize) -> Option<Zone> {
        self.verdict.ok()?;
        let price = self.prices.list().get(k)?;
        let position = self.network.positions().get(k)?;
        Some(Zone {
            price: price.get(),
            position: position.get(),
        })
    }

    fn hub_price(&self) -> Option<i32> {
        None
    }

    fn line_count(&self) -> usize {
        self.verdict.map_or(0, |()| self.network.borders().len())
    }

    fn line(&self, k: usize) -> Option<Line> {
        self.verdict.ok()?;
        let border = self.network.borders().get(k)?;
        Some(self.line_of(border))
    }

    ghost bounded = { λ s. coordinated_bounded s.network.now s.prices.now s.verdict };
}
