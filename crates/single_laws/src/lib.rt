// The tables of a case that can be run: the order names each of its trains once, and partners are elements, each the other's.
#![tactic(auto)]

ghost use Rattle.single_laws.specs.Plan.{Planned};

use moving::Tables;

// The tables of such a case. The joint run's `visiting::Plan` is another type: it tells what that run rests on.
#[derive(Clone, Copy)]
pub struct Plan<'a> {
    pub tables: Tables<'a>,
    pub ghost planned: { Planned tables.words.now },
}
